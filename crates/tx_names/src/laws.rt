// What holds of the definitions.
ghost use Rattle.tx_names.specs.Laws.{FaultsLaw, NumberingLaw, SoundLaw};

/// Linking gives a function exactly where there is no fault, and else it tells the first one.
pub fn faults_are_told()
    ensures { FaultsLaw }
{}

/// A function linked with slots is the one with names, but for its names.
pub fn slots_stand_for_names()
    ensures { NumberingLaw }
{}

/// In a linked function each name is one of its local names, and each word has a number of arguments that it takes.
pub fn linked_functions_are_sound()
    ensures { SoundLaw }
{}

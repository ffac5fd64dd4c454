// What holds of the definitions.
ghost use Rattle.tx_script.specs.Laws.{OneReadingLaw, LawfulLaw, LongLaw};

use tx_parse::{blocks_are_in_profile, tokens_tell_the_block};

/// The blocks of a script are read in one way: as the same trees, and with the same fault.
pub fn blocks_are_read_once()
    ensures { OneReadingLaw }
{
    tokens_tell_the_block();
    blocks_are_in_profile();
}

/// The pipe of an accepted script is lawful.
pub fn accepted_pipes_are_lawful()
    ensures { LawfulLaw }
{}

/// A script with more bytes than the most is refused for that.
pub fn long_scripts_are_refused()
    ensures { LongLaw }
{}

// Laws of the definitions, each the contract of a function that does nothing.
ghost use Rattle.tx_values.specs.Laws.{HashLaw, HashableLaw, IsNumber, IsText, KeysLaw, LessLeftLaw, LessRightLaw, LessTransitiveLaw, PartsLaw, ReflexiveLaw, SameKeyLaw, SymmetricLaw, TransitiveLaw, TrichotomyLaw, ValidLaw};

/// A value is valid exactly where it is within the limits, its parts are valid, and, if it is an integer, it has 128 bits,
/// if it is a text, its characters are code points, and if it is a dictionary, its keys are hashable and no two of them are
/// equal.
pub fn validity_goes_by_parts()
    ensures { ValidLaw }
{}

/// Equality is an equivalence on valid values: it is reflexive and transitive on all values, and symmetric where the keys
/// in the first are hashable and pairwise unequal.
pub fn equality_is_an_equivalence()
    ensures reflexive { ReflexiveLaw }
    ensures symmetric { SymmetricLaw }
    ensures transitive { TransitiveLaw }
{}

/// Of hashable values the keys are equal exactly where the values are, keys are equal exactly where they have the same
/// atoms, and equal keys hash alike. What is equal to a hashable value is hashable.
pub fn keys_follow_equality()
    ensures equal { KeysLaw }
    ensures same { SameKeyLaw }
    ensures hash { HashLaw }
    ensures hashable { HashableLaw }
{}

/// Of two numbers, truth values among them, and of two texts, exactly one is before the other, or they are equal; both
/// orders are transitive.
pub fn numbers_and_texts_are_in_order()
    ensures numbers { TrichotomyLaw IsNumber }
    ensures texts { TrichotomyLaw IsText }
    ensures numbers_transitive { LessTransitiveLaw IsNumber }
    ensures texts_transitive { LessTransitiveLaw IsText }
{}

/// What is equal to a valid value comes before what it comes before, and behind what it comes behind, and raises where it
/// raises: sorting may take either.
pub fn less_respects_equal()
    ensures left { LessLeftLaw }
    ensures right { LessRightLaw }
{}

/// A part weighs less than the whole, and is less deep.
pub fn parts_are_less()
    ensures { PartsLaw }
{}

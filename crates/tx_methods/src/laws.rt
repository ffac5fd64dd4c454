// Laws of the definitions, each the contract of a function that does nothing but name the laws that it stands on.
ghost use Rattle.tx_values.specs.Laws.{IsNumber, IsText};
ghost use Rattle.tx_methods.specs.Laws.{BuiltinTakesLaw, BuiltinsLaw, ExtremesLaw, IterateLaw, MethodTakesLaw, MethodsLaw, WalksLaw, ZipLaw};

use tx_num::ranges_stop_before_the_end;
use tx_text::places_are_least_and_greatest;
use tx_values::{
    equality_is_an_equivalence, numbers_and_texts_are_in_order, parts_are_less,
    validity_goes_by_parts,
};

/// What a built-in function, a method or a walk gives of valid values is valid, and so is each item that is gone through.
pub fn results_are_valid()
    ensures builtins { BuiltinsLaw }
    ensures methods { MethodsLaw }
    ensures iterate { IterateLaw }
    ensures walks { WalksLaw }
{
    validity_goes_by_parts();
    parts_are_less();
    ranges_stop_before_the_end();
    places_are_least_and_greatest();
}

/// Of numbers, and of texts, `min` gives the first item that no item is less than, and `max` the first that none is greater
/// than.
pub fn extremes_are_first()
    ensures numbers { ExtremesLaw IsNumber }
    ensures texts { ExtremesLaw IsText }
{
    numbers_and_texts_are_in_order();
    equality_is_an_equivalence();
}

/// `zip` goes through as many tuples as the shorter of the two has items.
pub fn zip_stops_at_the_shorter()
    ensures { ZipLaw }
{}

/// For a number of arguments that is not allowed a built-in function, and a method of a kind that has it, is TypeError.
pub fn wrong_numbers_are_type_errors()
    ensures builtins { BuiltinTakesLaw }
    ensures methods { MethodTakesLaw }
{}

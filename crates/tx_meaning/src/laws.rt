// What holds of the meaning.
ghost use Rattle.std.specs.Prelude.{nat_eq};
ghost use Rattle.tx_tree.specs.Words.{same_text};
ghost use Rattle.tx_meaning.specs.Laws.{BoundLaw, CallLaw, NumberedLaw, ReadsLaw, Rewritings, ValidityLaw};

use tx_methods::results_are_valid as results_of_methods_are_valid;
use tx_names::{linked_functions_are_sound, slots_stand_for_names};
use tx_ops::results_are_valid as results_of_operators_are_valid;
use tx_values::{equality_is_an_equivalence, validity_goes_by_parts};

/// A function with slots means what the function with names means.
pub fn numbered_functions_mean_the_same()
    ensures { NumberedLaw }
{}

/// The meaning of an expression or of a body depends on no name that it does not read.
pub fn names_that_are_not_read_do_not_matter()
    ensures names { ReadsLaw same_text }
    ensures slots { ReadsLaw nat_eq }
{}

/// A call of a def gives what its body gives on the arguments alone, whatever names and row are around the call.
pub fn defs_see_their_arguments_alone()
    ensures names { CallLaw same_text }
    ensures slots { CallLaw nat_eq }
{}

/// `a and b`, `a or b`, `not a` and the conditional are each other's usual rewritings, and so are chains, `elif`, `op=` and
/// lambdas.
pub fn rewritings_keep_the_meaning()
    ensures names { Rewritings same_text }
    ensures slots { Rewritings nat_eq }
{}

/// A function with slots, as `bind` or `bind_lambda` gives it, means what the def or the lambda with its names means, where the
/// earlier defs are sound.
pub fn bound_functions_mean_the_script()
    ensures { BoundLaw }
{
    slots_stand_for_names();
    linked_functions_are_sound();
}

/// Of a valid row and valid arguments a function gives a valid value, where its literals are valid.
pub fn results_are_valid()
    ensures names { ValidityLaw same_text }
    ensures slots { ValidityLaw nat_eq }
{
    validity_goes_by_parts();
    equality_is_an_equivalence();
    results_of_operators_are_valid();
    results_of_methods_are_valid();
}

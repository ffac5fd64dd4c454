// Laws of the definitions, each the contract of a function that does nothing but call up the laws that it rests on.
ghost use Rattle.tx_values.specs.Laws.{IsNumber, IsText};
ghost use Rattle.tx_ops.specs.Laws.{DivisionLaw, IdentityLaw, JoinedLaw, LessEqualLaw, PartLaw, ResultsAreValid};

use tx_num::floor_division_is_the_only_one;
use tx_text::places_are_least_and_greatest;
use tx_values::{numbers_and_texts_are_in_order, validity_goes_by_parts};

/// What an operation makes of valid values is valid.
pub fn results_are_valid()
    ensures { ResultsAreValid }
{
    validity_goes_by_parts();
    floor_division_is_the_only_one();
}

/// Where `a // b` and `a % b` have values, `a` is `(a // b) * b + a % b`, and the remainder lies between 0 and `b`.
pub fn quotient_and_remainder_make_up_the_dividend()
    ensures numbers { DivisionLaw }
    ensures operators { IdentityLaw }
{
    floor_division_is_the_only_one();
}

/// Where `a + b` of two sequences has a value, `(a + b)[0:len(a)]` is `a`, and `(a + b)[len(a):]` is `b`.
pub fn joined_sequences_come_apart()
    ensures { JoinedLaw }
{}

/// A text is in another exactly where it stands at some place of it.
pub fn parts_of_texts_stand_at_a_place()
    ensures { PartLaw }
{
    places_are_least_and_greatest();
}

/// Of two numbers and of two texts, `a <= b` is `a < b or a == b`.
pub fn less_equal_is_less_or_equal()
    ensures numbers { LessEqualLaw IsNumber }
    ensures texts { LessEqualLaw IsText }
{
    numbers_and_texts_are_in_order();
}

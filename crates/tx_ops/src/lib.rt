//! What the operators of the language give on values: a value, or the class that is raised.
#![tactic(auto)]

mod arithmetic;
mod comparison;
mod copies;
mod item;
mod laws;
mod operand;
mod part;
mod sequence;

pub use arithmetic::{binary, unary};
pub use comparison::compare;
pub use item::index;
pub use laws::{
    joined_sequences_come_apart, less_equal_is_less_or_equal, parts_of_texts_stand_at_a_place,
    quotient_and_remainder_make_up_the_dividend, results_are_valid,
};
pub use part::slice;

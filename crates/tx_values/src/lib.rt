//! The values of the language: their limits, equality, order, truth and keys, and the rows that hold them.
#![tactic(auto)]

mod copying;
mod equality;
mod key;
mod laws;
mod limits;
mod lookup;
mod order;
mod row;
mod value;

pub use copying::{copy, copy_items};
pub use equality::{equal, truthy};
pub use key::{Key, hashable, key_of, key_of_items};
pub use laws::{
    equality_is_an_equivalence, keys_follow_equality, less_respects_equal,
    numbers_and_texts_are_in_order, parts_are_less, validity_goes_by_parts,
};
pub use limits::{MOST_DEPTH, MOST_WEIGHT, depth, made, weight};
pub use lookup::value_under;
pub use order::less;
pub use row::{Mark, Names, Naming, Origin, Origins, Row, RowLists, Rows, copy_row};
pub use value::{Items, OpError, Pairs, Value};

//! Integers of 128 bits: arithmetic that tells where a result has no room, and integers as texts, read and printed.
#![tactic(auto)]

mod arithmetic;
mod division;
mod place;
mod print;
mod range;
mod read;
mod reading;

pub use arithmetic::{add, mul, neg, sub};
pub use division::{Division, floor_div, floor_division_is_the_only_one, floor_mod};
pub use place::{place_of, places_are_as_in_python, slice_start, slice_stop, times_of};
pub use print::{print_int, printed_ints_read_back};
pub use range::{MOST_ITEMS, RangeLength, range_length, ranges_stop_before_the_end};
pub use read::{IntRead, read_int};

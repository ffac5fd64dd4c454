//! Tables of rows that a seed gives, to run scripts on.
#![tactic(auto)]

mod generated;

pub use generated::{examples_hold, fewer_rows_stand_in_front, rows};

//! Names in the order in which they were met, each once, found by hash.
#![tactic(auto)]

mod distinct;
mod name;
mod name_set;

pub use distinct::are_distinct;
pub use name_set::Names;

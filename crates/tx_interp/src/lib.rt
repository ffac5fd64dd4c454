//! An interpreter of functions.
#![tactic(auto)]

mod calling;
mod entries;
mod eval;
mod frame;
mod growing;
mod held;
mod leaf;

pub use calling::{Arg, call};

//! The words of a command line, read with `clap`.
#![tactic(auto)]

mod command;
mod command_line;
mod words;

pub use command::Command;
pub use words::{command_of, examples_hold};

//! Scripts: every check of a script's text, and the pipe of an accepted one.
#![tactic(auto)]

mod ahead;
mod check;
mod entry;
mod fault;
mod files;
mod form;
mod laws;
mod link;
mod literal;
mod node;
mod operator;
mod read;
mod script;
mod uses;
mod written;

pub use fault::{ScriptError, ScriptFault, ScriptKind};
pub use files::{REPORT_SUFFIX, report_name};
pub use laws::{accepted_pipes_are_lawful, blocks_are_read_once, long_scripts_are_refused};
pub use script::read_script;

//! The top call: a command, from its words to the files and the console.
#![tactic(auto)]

mod accept;
mod accepting;
mod answers;
mod closing;
mod command;
mod complaint;
mod header;
mod input;
mod laws;
mod outcome;
mod reading;
mod whole;
mod work;
mod writing;

pub use command::run_words;
pub use laws::verdicts_are_one;
pub use outcome::{ColumnFault, Outcome, status};

/// The words behind the program's own name.
pub type Words = tx_text::Texts;

//! The report: the exceptions that no handler took, and the bytes that are written of them.
#![tactic(auto)]

mod report;

pub use report::{Entries, Entry};

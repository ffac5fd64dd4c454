//! The plain engine: the operators of a pipe, with their handlers, over whole files, every function interpreted.
#![tactic(auto)]

mod folding;
mod handling;
mod held;
mod laws;
mod outcome;
mod plain;
mod reporting;
mod row_wise;
mod runs;
mod stored;
mod walking;
mod whole;
mod writing;

pub use handling::{Handled, Want, handle};
pub use laws::{rows_go_one_by_one, runs_are_lists};
pub use outcome::RowOutcome;
pub use plain::{Answer, Sources, run_plain};
pub use walking::row_through;

//! The outside: a place of files, and a console that is told bytes.
#![tactic(auto)]

mod console;
mod memory_console;
mod memory_place;
mod place;
mod real_console;
mod real_place;
mod whole;

pub use console::Console;
pub use memory_console::MemoryConsole;
pub use memory_place::{Files, MemoryPlace};
pub use place::{CallError, Place};
pub use real_console::RealConsole;
pub use real_place::RealPlace;
pub use whole::{ReadError, read_all};

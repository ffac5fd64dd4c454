//! Pipes: the operators of a script by number, and the columns of each.
#![tactic(auto)]

mod column;
mod index;
mod pipe;
#[cfg(test)]
mod tests;
mod verb;

pub use column::{ColumnsError, Headers, Schemas, columns};
pub use pipe::{Handler, Handlers, MapTo, Node, Operator, Pipe};
pub use verb::{Verb, class_at, verb_named};

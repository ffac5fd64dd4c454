//! The classes of exceptions, and the counts of evaluations.
#![tactic(auto)]

mod class;
mod meter;
mod steps;

pub use class::{Class, catches, class_name, class_named, classes_are_a_tree};
pub use meter::Meter;
pub use steps::{Steps, step};

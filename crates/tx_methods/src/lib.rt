//! The table of functions: what each built-in function, method and walk of the language gives on values.
#![tactic(auto)]

mod arguments;
mod builtins;
mod case;
mod couples;
mod dictionaries;
mod extremes;
mod fits;
mod joins;
mod laws;
mod limits;
mod methods;
mod ranges;
mod sequences;
mod splits;
mod sums;
mod texts;
mod walks;

pub use builtins::{builtin, builtin_of_one};
pub use laws::{
    extremes_are_first, results_are_valid, wrong_numbers_are_type_errors, zip_stops_at_the_shorter,
};
pub use methods::{has_method, method};
pub use walks::{items_of, iterate};

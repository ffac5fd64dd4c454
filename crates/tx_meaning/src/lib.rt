//! What functions mean: of a row and the values of their parameters a value, or the class that is raised.
#![tactic(auto)]

mod laws;

pub use laws::{
    bound_functions_mean_the_script, defs_see_their_arguments_alone,
    names_that_are_not_read_do_not_matter, numbered_functions_mean_the_same, results_are_valid,
    rewritings_keep_the_meaning,
};

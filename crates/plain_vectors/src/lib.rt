//! Whole scripts over files, as plain text. It has tests alone: what they call is in `tx_plain`, and a change of the table
//! leaves the crates that stand on that as they were proved.
#![tactic(auto)]

#[cfg(test)]
mod tests;

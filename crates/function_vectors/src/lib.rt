//! What binding answers on functions written as Python text, read by this project's own tokens and reader. It has tests
//! alone: what they call is in `tx_names`, and a change of the table leaves the crates that stand on that as they were proved.
#![tactic(auto)]

#[cfg(test)]
mod tests;

//! What command lines ask for, and the tables that seeds give. It has tests alone: what they call is in `tx_words` and
//! `tx_generate`, and a change of a table leaves the crates that stand on those as they were proved.
#![tactic(auto)]

#[cfg(test)]
mod tests;

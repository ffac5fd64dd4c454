//! What the reader of blocks answers, as tables of scripts with their trees. It has tests alone: what they call is in
//! `tx_parse`, and a change of a table leaves the crates that stand on that as they were proved.
#![tactic(auto)]

#[cfg(test)]
mod tests;

//! What the text calls answer, as tables of calls with CPython's answers. It has tests alone: what they call is in
//! `tx_text`, and a change of a table leaves the crates that stand on that as they were proved.
#![tactic(auto)]

#[cfg(test)]
mod tests;

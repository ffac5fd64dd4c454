//! What commands leave, and what places and consoles answer, as tables. It has tests alone: what they call is in `tuplex_run`
//! and `tx_place`, which are proved without them.
#![tactic(auto)]

#[cfg(test)]
mod tests;

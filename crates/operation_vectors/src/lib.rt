//! What operators and functions answer on values, as tables with CPython's answers. It has tests alone: what they call is in
//! `tx_ops` and `tx_methods`, which are proved without them.
#![tactic(auto)]

#[cfg(test)]
mod tests;

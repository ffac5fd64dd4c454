//! Trees and tokens as tables. It has tests alone: what they call is in `tx_tree` and `tx_tokens`, which are proved without
//! them.
#![tactic(auto)]

#[cfg(test)]
mod tests;

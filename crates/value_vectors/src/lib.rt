//! What classes, integers and values answer, as tables with CPython's answers. It has tests alone: what they call is in
//! `tx_base`, `tx_num` and `tx_values`, which are proved without them.
#![tactic(auto)]

#[cfg(test)]
mod tests;

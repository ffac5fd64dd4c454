//! Records, joins and reports as a caller makes them. It has tests alone: what they call is in `tx_records`, `tx_joins` and
//! `tx_report`, which are proved without them.
#![tactic(auto)]

#[cfg(test)]
mod tests;

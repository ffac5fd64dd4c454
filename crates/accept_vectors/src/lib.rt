//! What the reader of scripts answers, as tables of scripts with their refusals and pipes. It has tests alone.
#![tactic(auto)]

#[cfg(test)]
mod tests;

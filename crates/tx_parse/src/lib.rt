//! The reader of blocks: the tree whose spelling some tokens are, or why there is none.
#![tactic(auto)]

mod answer;
mod chain;
mod cover;
mod cursor;
mod expr;
mod fault;
mod laws;
mod place;
mod statement;
mod symbol;
mod target;

pub use answer::{BlockError, block};
pub use cover::{Span, Spans, blocks};
pub use laws::{
    blocks_are_in_profile, blocks_begin_at_lines, blocks_cover_the_tokens, spelling_tells_the_tree,
    spellings_agree, tokens_tell_the_block,
};

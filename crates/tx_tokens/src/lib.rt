//! The tokens of a script: what its text is cut into, and how its lines are laid out.
#![tactic(auto)]

mod cursor;
mod integer;
mod laws;
mod literal;
mod mark;
mod nesting;
mod piece;
mod reader;
mod script;
mod stack;
mod token;
mod word;

pub use laws::{events_are_in_order, layout_is_balanced, spans_rise};
pub use script::{MOST_CHARACTERS, tokens};
pub use token::{Token, TokenError, TokenKind, TokenList};

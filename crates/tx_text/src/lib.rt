//! Lists, bytes and texts that keep their allocator, and the one name for want of memory.
#![tactic(auto)]

mod build;
mod case;
mod draft;
mod limit;
mod memory;
mod points;
mod search;
mod sequence;
mod split;
mod store;
mod strip;
mod text;

pub use build::{replacing_is_joining, zeros_stand_behind_the_sign};
pub use limit::Long;
pub use memory::NoMemory;
pub use points::first_char;
pub use search::{counts_are_of_pieces, places_are_least_and_greatest};
pub use sequence::{Bytes, Numbers, Sequence, Texts};
pub use split::{pieces_are_the_text, pieces_end_at_first_places, words_stand_between_blanks};
pub use strip::{Side, is_blank, stripped_ends_are_clean};
pub use text::{PyText, Utf8Fault, examples_hold};

//! Joins of rows, and the first of equal rows, by an index of their keys.
#![tactic(auto)]

mod first_places;
mod firsts;
mod index;
mod joined;
mod joining;
mod row_copies;

pub use first_places::FirstPlaces;
pub use firsts::unique;
pub use joined::Joined;
pub use joining::join;

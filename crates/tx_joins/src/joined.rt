// What a join and `unique` answer.
use tx_values::{Origins, Rows};

/// The rows of the answer, and the origins of the rows that took no part, since a cell that is compared in them is not
/// hashable (a TypeError there).
#[derive(Drop)]
pub struct Joined {
    pub rows: Rows,
    pub unhashable: Origins,
}

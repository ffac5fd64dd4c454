// What a function takes.

/// What a function takes: so many values; one row; an accumulator and a row.
#[derive(Clone, Copy, Debug, PartialEq, Eq)]
pub enum Role {
    Plain(u32),
    OfRow,
    OfAccRow,
}

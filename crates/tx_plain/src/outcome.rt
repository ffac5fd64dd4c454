// What comes of a row.
use tx_base::Class;
use tx_values::Row;

/// What operators that go row by row make of a row: a row, nothing, or a class that no handler took, with the number of the
/// operator that raised it.
#[derive(Drop)]
pub enum RowOutcome {
    Out(Row),
    Dropped,
    Reported(u32, Class),
}

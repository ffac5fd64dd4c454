// What is printed of an answer: how much there is, and a sum over a part of it, which hangs on the order.
use tx_records::{CsvSource, RawRows};
use tx_text::{Bytes, NoMemory};
use tx_values::{Row, Value};

/// One row in so many goes into the sum.
const ROWS: usize = 7;

/// One byte in so many goes into the sum.
const BYTES: usize = 97;

#[derive(Clone, Copy, Debug, PartialEq, Eq)]
pub(crate) struct Tally {
    pub(crate) count: usize,
    pub(crate) sum: u64,
}

// A sum with one more item.
fn with(sum: u64, item: u64) -> u64 {
    sum.wrapping_mul(31).wrapping_add(item)
}

// A sum with the lengths of a row's fields.
fn with_fields(sum: u64, rows: &RawRows, row: usize, width: usize) -> u64 {
    let mut sum = sum;
    for column in 0..width {
        sum = with(sum, rows.field(row, column).len() as u64);
    }
    sum
}

/// How many good and faulty records there are, and the lengths of fields.
pub(crate) fn of_source(made: &CsvSource) -> Tally {
    let mut sum = made.faults.len() as u64;
    for row in 0..made.rows.len() {
        if row % ROWS == 0 {
            sum = with_fields(sum, &made.rows, row, made.names.len());
        }
    }
    Tally {
        count: made.rows.len(),
        sum,
    }
}

// An integer itself, a text by its length, and any other value by its kind.
fn weight(value: &Value) -> u64 {
    match value {
        Value::Int(n) => u64::try_from(*n).unwrap_or(1),
        Value::Text(text) => text.len() as u64,
        Value::Truth(true) => 2,
        Value::Truth(false) => 3,
        _ => 4,
    }
}

fn with_cells(sum: u64, row: &Row) -> u64 {
    let mut sum = sum;
    for cell in row.cells.as_slice() {
        sum = with(sum, weight(cell));
    }
    sum
}

/// How many cells there are, and what they weigh.
pub(crate) fn of_cells(rows: &RawRows, count: usize) -> Result<Tally, NoMemory> {
    let mut sum = 0u64;
    for at in 0..rows.len() {
        if at % ROWS == 0 {
            sum = with_cells(sum, &rows.row(at)?);
        }
    }
    Ok(Tally { count, sum })
}

/// How many bytes there are, and some of them.
pub(crate) fn of_bytes(bytes: &Bytes) -> Tally {
    let mut sum = 0u64;
    for (at, byte) in bytes.as_slice().iter().enumerate() {
        if at % BYTES == 0 {
            sum = with(sum, u64::from(*byte));
        }
    }
    Tally {
        count: bytes.len(),
        sum,
    }
}

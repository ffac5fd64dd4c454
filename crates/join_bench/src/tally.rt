// What is printed of some rows.
use tx_values::{Row, Rows, Value};

/// What a sum is multiplied by before the next part is added.
const FACTOR: i128 = 1_000_003;

/// The part of a cell that is no number and no text.
const OTHER: i128 = -1;

/// How many rows there are, and a sum over the cells of some of them, in their order.
#[derive(Clone, Copy, Debug, PartialEq, Eq)]
pub(crate) struct Tally {
    pub(crate) rows: usize,
    pub(crate) sum: i128,
}

// A sum with one more part.
fn more(sum: i128, part: i128) -> i128 {
    sum.wrapping_mul(FACTOR).wrapping_add(part)
}

// A sum with the bytes of a text.
fn with_text(mut sum: i128, text: &str) -> i128 {
    for byte in text.as_bytes() {
        sum = more(sum, i128::from(*byte));
    }
    sum
}

// A sum with a cell.
fn with_cell(sum: i128, cell: &Value) -> i128 {
    match cell {
        Value::Truth(truth) => more(sum, i128::from(*truth)),
        Value::Int(number) => more(sum, *number),
        Value::Text(text) => with_text(sum, text.as_str()),
        _ => more(sum, OTHER),
    }
}

// A sum with the cells of a row.
fn with_row(mut sum: i128, row: &Row) -> i128 {
    for cell in row.cells.as_slice() {
        sum = with_cell(sum, cell);
    }
    sum
}

/// The tally of some rows, of which one in so many gives its cells to the sum.
pub(crate) fn tallied(rows: &Rows, stride: usize) -> Tally {
    let mut sum = 0i128;
    let mut passed = 0usize;
    for row in rows.as_slice() {
        if passed == 0 {
            sum = with_row(sum, row);
            passed = stride;
        }
        passed = passed.saturating_sub(1);
    }
    Tally {
        rows: rows.len(),
        sum,
    }
}

// The rows of a file.
use crate::refusal::Refusal;
use std::alloc::Global;
use tx_place::{Place, read_all};
use tx_records::{RawRows, source};
use tx_text::NoMemory;
use tx_values::{Naming, Rows};

/// How many bytes a file may have.
const LIMIT: u64 = 1 << 30;

// The rows of all good records.
fn all_rows(alloc: Global, raw: &RawRows) -> Result<Rows, NoMemory> {
    let mut rows = Rows::new(alloc);
    for place in 0..raw.len() {
        rows.push(raw.row(place)?)?;
    }
    Ok(rows)
}

/// The rows of a file whose first record names the columns, as those of an operator.
pub(crate) fn rows_of<P: Place>(
    alloc: Global,
    place: &mut P,
    name: &str,
    operator: u32,
) -> Result<Rows, Refusal> {
    let bytes = read_all(alloc, place, name, LIMIT)?;
    let read = source(alloc, &bytes, &Naming { names: None }, operator)?;
    Ok(all_rows(alloc, &read.rows)?)
}

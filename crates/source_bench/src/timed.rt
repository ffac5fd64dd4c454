// What is timed: a source, all its rows, and the bytes of all rows.
use std::alloc::Global;
use tx_records::{CellError, CsvSource, Output, RawRows, source};
use tx_text::{Bytes, NoMemory};
use tx_values::{Names, Naming, Rows};

/// The source of a file without names in the script, made once and so many times more.
pub(crate) fn sources(alloc: Global, file: &Bytes, more: u32) -> Result<CsvSource, NoMemory> {
    let naming = Naming { names: None };
    let mut made = source(alloc, file, &naming, 1)?;
    for _time in 0..more {
        made = source(alloc, file, &naming, 1)?;
    }
    Ok(made)
}

// How many cells all rows have, each row made for itself and let go.
fn cells_of(rows: &RawRows) -> Result<usize, NoMemory> {
    let mut count = 0usize;
    for at in 0..rows.len() {
        count = count.wrapping_add(rows.row(at)?.cells.len());
    }
    Ok(count)
}

/// How many cells all rows have, counted once and so many times more.
pub(crate) fn cells(rows: &RawRows, more: u32) -> Result<usize, NoMemory> {
    let mut count = cells_of(rows)?;
    for _time in 0..more {
        count = cells_of(rows)?;
    }
    Ok(count)
}

/// All rows.
pub(crate) fn rows_of(alloc: Global, raw: &RawRows) -> Result<Rows, NoMemory> {
    let mut rows = Rows::new(alloc);
    for at in 0..raw.len() {
        rows.push(raw.row(at)?)?;
    }
    Ok(rows)
}

// The header and the lines of all rows.
fn written_of(alloc: Global, names: &Names, rows: &Rows) -> Result<Bytes, CellError> {
    let mut output = Output::new(alloc);
    output.add_header(names)?;
    for row in rows.as_slice() {
        output.add_row(row)?;
    }
    Ok(output.into_bytes()?)
}

/// The header and the lines of all rows, written once and so many times more.
pub(crate) fn written(
    alloc: Global,
    names: &Names,
    rows: &Rows,
    more: u32,
) -> Result<Bytes, CellError> {
    let mut bytes = written_of(alloc, names, rows)?;
    for _time in 0..more {
        bytes = written_of(alloc, names, rows)?;
    }
    Ok(bytes)
}

// Rows on their way through operators.
ghost use Rattle.std.specs.Prelude.{◌≡◌, IfOk, OnOk};
ghost use Rattle.tx_plain.specs.RowWise.{put_cell, with_cells};
ghost use Rattle.tx_plain.specs.Calls.Holding.{outcome_in, row_held};

use crate::RowOutcome;
use std::alloc::Global;
use tx_base::Class;
use tx_text::NoMemory;
use tx_values::{Items, Origin, Row, Value, copy_row};

/// A row: one that stands in a list is lent, one that was read or made is owned.
#[derive(Drop)]
pub(crate) enum Held<'a> {
    Lent(&'a Row),
    Own(Row),
}

/// What came of a row, as `RowOutcome`, where the row may be lent.
#[derive(Drop)]
pub(crate) enum Passed<'a> {
    Out(Held<'a>),
    Dropped,
    Reported(u32, Class),
}

/// The row, to be looked at.
pub(crate) fn seen<'b>(held: &'b Held<'_>) -> &'b Row
    ensures { result.now ≡ row_held held.now }
{
    match held {
        Held::Lent(row) => row,
        Held::Own(row) => row,
    }
}

/// The row, for one who keeps it: a lent one is made anew.
pub(crate) fn owned(alloc: Global, held: Held<'_>) -> Result<Row, NoMemory>
    ensures { IfOk result (λ r. r ≡ row_held held.entry) }
{
    match held {
        Held::Lent(row) => copy_row(alloc, row),
        Held::Own(row) => Ok(row),
    }
}

/// The outcome, for one who keeps it.
pub(crate) fn kept(alloc: Global, passed: Passed<'_>) -> Result<RowOutcome, NoMemory>
    ensures { IfOk result (λ o. o ≡ outcome_in passed.entry) }
{
    match passed {
        Passed::Out(held) => Ok(RowOutcome::Out(owned(alloc, held)?)),
        Passed::Dropped => Ok(RowOutcome::Dropped),
        Passed::Reported(number, class) => Ok(RowOutcome::Reported(number, class)),
    }
}

// The origin of a row, without its cells.
fn origin_of(held: Held<'_>) -> Result<Origin, NoMemory>
    ensures { IfOk result (λ o. o ≡ (row_held held.entry).origin) }
{
    match held {
        Held::Lent(row) => row.origin.copy(),
        Held::Own(row) => {
            let Row { cells: _, origin } = row;
            Ok(origin)
        }
    }
}

/// The row with these cells in place of its own.
pub(crate) fn with_cells(cells: Items, held: Held<'_>) -> Result<Row, NoMemory>
    ensures { IfOk result (λ r. r ≡ with_cells cells (row_held held.entry)) }
{
    let origin = origin_of(held)?;
    Ok(Row { cells, origin })
}

// Puts a value in the place of another, or behind the last.
#[tactic(auto, using(crate::proofs::Cells::put_cells))]
fn put_cell(cells: &mut Vec<Value>, place: usize, x: Value) -> Result<(), NoMemory>
    ensures { OnOk result (cells.new.items ≡ put_cell place x cells.old.items) }
{
    if place < cells.len() {
        cells[place] = x;
    } else {
        cells.push(x)?;
    }
    Ok(())
}

/// The row with a value in the place of one of its cells, or behind the last.
pub(crate) fn with_cell(
    alloc: Global,
    held: Held<'_>,
    place: usize,
    x: Value,
) -> Result<Row, NoMemory>
    ensures { IfOk result (λ r. r ≡ with_cells (put_cell place x (row_held held.entry).cells) (row_held held.entry)) }
{
    let Row { cells, origin } = owned(alloc, held)?;
    let mut cells = cells.into_vec();
    put_cell(&mut cells, place, x)?;
    Ok(Row {
        cells: Items::from_vec(cells),
        origin,
    })
}

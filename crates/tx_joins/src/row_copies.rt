// Rows made of copies of others.
ghost use Rattle.std.specs.Prelude.{◌≡◌, ◌<◌, ◌++◌, IfOk, OnOk, length, remove};
ghost use Rattle.tx_joins.specs.Join.{alone, pair_of};

use std::alloc::Global;
use tx_text::NoMemory;
use tx_values::{Items, Origin, Row, Value, copy};

// Adds copies of some values.
fn add_copies(alloc: Global, cells: &mut Vec<Value>, values: &[Value]) -> Result<(), NoMemory>
    ensures { OnOk result (cells.new.items ≡ cells.old.items ++ values.now) }
{
    for value in values {
        cells.push(copy(alloc, value)?)?;
    }
    Ok(())
}

// The marks of one origin and then those of another.
fn both_origins(left: &Origin, right: &Origin) -> Result<Origin, NoMemory>
    ensures { IfOk result (λ o. o ≡ left.now ++ right.now) }
{
    let mut origin = left.copy()?;
    for mark in right.as_slice() {
        origin.push(*mark)?;
    }
    Ok(origin)
}

// Adds copies of all values but the one at a place.
fn add_others(
    alloc: Global,
    cells: &mut Vec<Value>,
    values: &[Value],
    at: usize,
) -> Result<(), NoMemory>
    ensures { OnOk result (cells.new.items ≡ cells.old.items ++ remove values.now at) }
{
    if at < values.len() {
        add_copies(alloc, cells, &values[..at])?;
        add_copies(alloc, cells, &values[at + 1..])
    } else {
        add_copies(alloc, cells, values)
    }
}

/// The left row's cells and then those of the right one but its key.
pub(crate) fn pair(
    alloc: Global,
    left: &Row,
    right: &Row,
    right_key: usize,
) -> Result<Row, NoMemory>
    ensures { IfOk result (λ row. row ≡ pair_of right_key left.now right.now) }
{
    let room = left.cells.len().saturating_add(right.cells.len());
    let mut cells = Vec::with_capacity(alloc, room.saturating_sub(1))?;
    add_copies(alloc, &mut cells, left.cells.as_slice())?;
    add_others(alloc, &mut cells, right.cells.as_slice(), right_key)?;
    let origin = both_origins(&left.origin, &right.origin)?;
    Ok(Row {
        cells: Items::from_vec(cells),
        origin,
    })
}

/// The left row's cells and then None for each column of the right side but its key.
pub(crate) fn alone_row(alloc: Global, left: &Row, width: usize) -> Result<Row, NoMemory>
    ensures { IfOk result (λ row. row ≡ alone width left.now) }
{
    let added = width.saturating_sub(1);
    let room = left.cells.len().saturating_add(added);
    let mut cells = Vec::with_capacity(alloc, room)?;
    add_copies(alloc, &mut cells, left.cells.as_slice())?;
    for column in 0..added {
        cells.push(Value::Nil)?;
    }
    let origin = left.origin.copy()?;
    Ok(Row {
        cells: Items::from_vec(cells),
        origin,
    })
}

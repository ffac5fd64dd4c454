// The first of equal rows, by an index of their keys.
ghost use Rattle.std.specs.Prelude.{◌≡◌, ◌++◌, ◌∷◌, [], List, IfOk, OnOk, MatchOption, true, false, filter, if◌then◌else◌};
ghost use Rattle.std.specs.List.{list_any};
ghost use Rattle.tx_values.specs.declared.row.Row.{Row};
ghost use Rattle.tx_values.specs.Keys.{key_of};
ghost use Rattle.tx_joins.specs.Unique.{cells_of, first_rows, has_keys, keyless_rows, same_cells, unique_rows};
ghost use Rattle.tx_joins.specs.Calls.Seen.{AreSeen};

use crate::{FirstPlaces, Joined};
use std::alloc::Global;
use tx_text::NoMemory;
use tx_values::{Key, OpError, Origins, Row, Rows, copy_row, key_of_items, keys_follow_equality};

// The key of all cells of a row, or none where one is not hashable.
fn key_of_cells(alloc: Global, row: &Row) -> Result<Option<Key>, NoMemory>
    ensures { IfOk result (λ o. MatchOption o (has_keys row.now ≡ false) (λ key. (has_keys row.now ≡ true) × (key ≡ key_of (cells_of row.now)))) }
{
    match key_of_items(alloc, row.cells.as_slice()) {
        Ok(key) => Ok(Some(key)),
        Err(OpError::Raise(_)) => Ok(None),
        Err(OpError::NoMemory) => Err(NoMemory),
    }
}

// Adds a row that has this key, where it is the first with it.
fn add_new(
    alloc: Global,
    row: &Row,
    place: u32,
    key: Key,
    seen: &mut FirstPlaces,
    kept: &mut Rows,
) -> Result<(), NoMemory>
    requires key { key ≡ key_of (cells_of row.now) }
    requires keys { has_keys row.now ≡ true }
    ensures seen { (ahead : List Row) → AreSeen seen.old ahead → OnOk result (AreSeen seen.new (ahead ++ row.now ∷ [])) }
    ensures kept { (ahead : List Row) → AreSeen seen.old ahead
        → OnOk result (kept.new ≡ kept.old ++ (if list_any (same_cells row.now) ahead then [] else row.now ∷ [])) }
{
    keys_follow_equality();
    let (_, is_new) = seen.see(key, place)?;
    if is_new {
        kept.push(copy_row(alloc, row)?)
    } else {
        Ok(())
    }
}

// Adds a row, where it has a key and is the first with it, or its origin, where it has none.
fn add_row(
    alloc: Global,
    row: &Row,
    place: u32,
    seen: &mut FirstPlaces,
    kept: &mut Rows,
    unhashable: &mut Origins,
) -> Result<(), NoMemory>
    ensures unhashable { OnOk result (unhashable.new ≡ unhashable.old ++ keyless_rows (row.now ∷ [])) }
    ensures seen { (ahead : List Row) → AreSeen seen.old ahead
        → OnOk result (AreSeen seen.new (ahead ++ filter has_keys (row.now ∷ []))) }
    ensures kept { (ahead rows : List Row) → AreSeen seen.old ahead
        → OnOk result (kept.new ++ first_rows (ahead ++ filter has_keys (row.now ∷ [])) rows
        ≡ kept.old ++ first_rows ahead (filter has_keys (row.now ∷ []) ++ rows)) }
{
    match key_of_cells(alloc, row)? {
        None => unhashable.push(row.origin.copy()?),
        Some(key) => add_new(alloc, row, place, key, seen, kept),
    }
}

/// Of rows that are equal cell by cell the first. A row with an unhashable cell takes no part, and its origin is told.
pub fn unique(alloc: Global, rows: &Rows) -> Result<Joined, NoMemory>
    ensures rows { IfOk result (λ j. j.rows ≡ unique_rows rows.now) }
    ensures unhashable { IfOk result (λ j. j.unhashable ≡ keyless_rows rows.now) }
{
    let len = rows.len();
    let all = rows.as_slice();
    let mut seen = FirstPlaces::with_room(alloc, len)?;
    let mut kept = Rows::new(alloc);
    let mut unhashable = Origins::new(alloc);
    for place in 0..len {
        add_row(
            alloc,
            &all[place],
            place as u32,
            &mut seen,
            &mut kept,
            &mut unhashable,
        )?;
    }
    Ok(Joined {
        rows: kept,
        unhashable,
    })
}

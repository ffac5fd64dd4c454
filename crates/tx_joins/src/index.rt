// An index of rows by their keys in a column.
ghost use Rattle.std.specs.Prelude.{◌≡◌, ◌<◌, ◌≤◌, ◌+◌, ◌^◌, [], ◌∷◌, ◌++◌, ℕ, List, true, IfOk, OnOk, length, map, option_map, slice_set};
ghost use Rattle.std.specs.HashMap.{get};
ghost use Rattle.tx_values.specs.declared.row.Row.{Row};
ghost use Rattle.tx_values.specs.Keys.{same_key};
ghost use Rattle.tx_joins.specs.Join.{has_key};
ghost use Rattle.tx_joins.specs.Calls.Chains.{IsIndex, behind, head_of, key_in, row_key};

use indexmap::IndexMap;
use std::alloc::Global;
use tx_text::NoMemory;
use tx_values::{Key, OpError, Row, Rows, Value, hashable, key_of, keys_follow_equality};

/// For each key the place of its first row, and for each row the place of the next one with its key.
#[derive(Drop)]
pub(crate) struct Index {
    pub(crate) heads: IndexMap<Key, u32>,
    pub(crate) next: Vec<Option<u32>>,
}

/// The keys of so many rows are made before these are looked up: their places in memory, far apart, are then fetched beside
/// one another.
const BATCH: usize = 64;

// The key of a value, or none where it is not hashable.
fn key_in(alloc: Global, cell: &Value) -> Result<Option<Key>, NoMemory>
    ensures { IfOk result (λ key. key ≡ key_in cell.now) }
{
    match key_of(alloc, cell) {
        Ok(key) => Ok(Some(key)),
        Err(OpError::Raise(_)) => Ok(None),
        Err(OpError::NoMemory) => Err(NoMemory),
    }
}

// The key of a row in a column, or none where it is not hashable.
fn row_key(alloc: Global, row: &Row, column: usize) -> Result<Option<Key>, NoMemory>
    ensures { IfOk result (λ key. key ≡ row_key column row.now) }
{
    match row.cells.get(column) {
        Some(cell) => key_in(alloc, cell),
        None => key_in(alloc, &Value::Nil),
    }
}

// The keys of some rows in a column.
fn row_keys(alloc: Global, rows: &[Row], column: usize) -> Result<Vec<Option<Key>>, NoMemory>
    ensures { IfOk result (λ keys. keys.items ≡ map (row_key column) rows.now) }
{
    let mut keys = Vec::with_capacity(alloc, rows.len())?;
    for row in rows {
        keys.push(row_key(alloc, row, column)?)?;
    }
    Ok(keys)
}

/// Whether a row has a key in a column.
pub(crate) fn has_key(row: &Row, column: usize) -> bool
    ensures { result ≡ has_key column row.now }
{
    match row.cells.get(column) {
        Some(cell) => hashable(cell),
        None => true,
    }
}

/// What stands behind a place in a chain.
pub(crate) fn behind(next: &[Option<u32>], place: u32) -> Option<u32>
    ensures { result ≡ behind next.now place }
{
    match next.get(place as usize) {
        Some(behind) => *behind,
        None => None,
    }
}

// Writes what stands behind a place.
fn link(next: &mut Vec<Option<u32>>, place: u32, behind: Option<u32>)
    requires { place < length next.old.items }
    ensures { next.new.items ≡ slice_set next.old.items place behind }
{
    next[place as usize] = behind;
}

// Puts a row with this key at a place in front of the others with it.
fn add_key(index: &mut Index, key: Option<Key>, place: u32) -> Result<(), NoMemory>
    requires { place < length index.old.next.items }
    ensures same { OnOk result (length index.new.next.items ≡ length index.old.next.items) }
    ensures index { (column : ℕ) (row : Row) (rows : List Row) → key ≡ row_key column row
        → IsIndex column (get same_key index.old.heads) index.old.next.items (place + 1) rows
        → OnOk result (IsIndex column (get same_key index.new.heads) index.new.next.items place (row ∷ rows)) }
{
    keys_follow_equality();
    match key {
        None => Ok(()),
        Some(key) => {
            let behind = index.heads.insert(key, place)?;
            link(&mut index.next, place, behind);
            Ok(())
        }
    }
}

// Puts some rows, which stand from a place on, in front of the others with their keys.
fn add_rows(
    alloc: Global,
    index: &mut Index,
    rows: &[Row],
    column: usize,
    at: usize,
) -> Result<(), NoMemory>
    requires room { at + length rows.now ≤ length index.old.next.items }
    requires few { at + length rows.now < 2 ^ 32 }
    ensures same { OnOk result (length index.new.next.items ≡ length index.old.next.items) }
    ensures index { (behind : List Row) → IsIndex column (get same_key index.old.heads) index.old.next.items (at + length rows.now) behind
        → OnOk result (IsIndex column (get same_key index.new.heads) index.new.next.items at (rows.now ++ behind)) }
{
    let mut keys = row_keys(alloc, rows, column)?;
    'keys: while let Some(key) = keys.pop() {
        add_key(index, key, (at + keys.len()) as u32)?;
    }
    Ok(())
}

// An index of no row, with room for so many.
fn empty_index(alloc: Global, len: usize) -> Result<Index, NoMemory>
    ensures next { IfOk result (λ index. length index.next.items ≡ len) }
    ensures heads { IfOk result (λ index. index.heads.entries ≡ []) }
{
    let mut next = Vec::with_capacity(alloc, len)?;
    for _place in 0..len {
        next.push(None)?;
    }
    Ok(Index {
        heads: IndexMap::with_capacity(alloc, len)?,
        next,
    })
}

// Where the batch starts that ends ahead of a place.
fn batch_start(to: usize) -> usize
    requires { 0 < to }
    ensures { result < to }
{
    if to > BATCH { to - BATCH } else { 0 }
}

// Where the batch ends that starts at a place.
fn batch_end(from: usize, len: usize) -> usize
    requires { from < len }
    ensures rises { from < result }
    ensures within { result ≤ len }
{
    if len - from > BATCH {
        from + BATCH
    } else {
        len
    }
}

/// The index of some rows by their keys in a column.
pub(crate) fn index_of(alloc: Global, rows: &Rows, column: usize) -> Result<Index, NoMemory>
    ensures { IfOk result (λ index. IsIndex column (get same_key index.heads) index.next.items 0 rows.now) }
{
    let len = rows.len();
    let mut index = empty_index(alloc, len)?;
    let all = rows.as_slice();
    let mut to = len;
    'batches: while to > 0 {
        let from = batch_start(to);
        add_rows(alloc, &mut index, &all[from..to], column, from)?;
        to = from;
    }
    Ok(index)
}

// What an index says of a key: nothing where there is none, and else the place of its first row, if it has one.
fn head_of(index: &Index, key: &Option<Key>) -> Option<Option<u32>>
    ensures { result ≡ option_map (get same_key index.now.heads) key.now }
{
    match key {
        None => None,
        Some(key) => Some(index.heads.get(key).copied()),
    }
}

// Adds what an index says of each of some rows.
fn add_heads(
    alloc: Global,
    index: &Index,
    rows: &[Row],
    column: usize,
    heads: &mut Vec<Option<Option<u32>>>,
) -> Result<(), NoMemory>
    ensures { OnOk result (heads.new.items ≡ heads.old.items ++ map (head_of column (get same_key index.now.heads)) rows.now) }
{
    let keys = row_keys(alloc, rows, column)?;
    for key in keys.as_slice() {
        heads.push(head_of(index, key))?;
    }
    Ok(())
}

/// What an index says of each of some rows: nothing where it has no key in the column, and else the place of the first row of
/// the index with its key, if there is one. Asked of all rows in turn, without other work in between, it is told sooner.
pub(crate) fn heads_of(
    alloc: Global,
    index: &Index,
    rows: &Rows,
    column: usize,
) -> Result<Vec<Option<Option<u32>>>, NoMemory>
    ensures { IfOk result (λ heads. heads.items ≡ map (head_of column (get same_key index.now.heads)) rows.now) }
{
    let len = rows.len();
    let all = rows.as_slice();
    let mut heads = Vec::with_capacity(alloc, len)?;
    let mut from = 0usize;
    'batches: while from < len {
        let to = batch_end(from, len);
        add_heads(alloc, index, &all[from..to], column, &mut heads)?;
        from = to;
    }
    Ok(heads)
}

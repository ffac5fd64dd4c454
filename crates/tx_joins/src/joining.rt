// Joins of rows by an index of keys.
ghost use Rattle.std.specs.Prelude.{◌≡◌, ◌++◌, ◌∷◌, [], ℕ, List, Some, IfOk, OnOk, filter, map, if◌then◌else◌, not};
ghost use Rattle.std.specs.HashMap.{get};
ghost use Rattle.std.specs.List.{flat_map};
ghost use Rattle.tx_values.specs.declared.row.Row.{Row};
ghost use Rattle.tx_values.specs.Keys.{same_key};
ghost use Rattle.tx_joins.specs.Join.{has_key, joined_rows, keyless, or_alone, pairs_of};
ghost use Rattle.tx_joins.specs.Calls.Chains.{IsChain, IsIndex, head_of, pair_at};

use crate::Joined;
use crate::index::{Index, behind, has_key, heads_of, index_of};
use crate::row_copies::{alone_row, pair};
use std::alloc::Global;
use tx_text::NoMemory;
use tx_values::{Origins, Row, Rows, keys_follow_equality};

// Adds the pair with the right row at a place, if there is one.
fn add_pair(
    alloc: Global,
    left: &Row,
    rights: &Rows,
    right_key: usize,
    place: u32,
    rows: &mut Rows,
) -> Result<(), NoMemory>
    ensures { OnOk result (rows.new ≡ rows.old ++ pair_at right_key left.now rights.now place) }
{
    match rights.get(place as usize) {
        Some(right) => rows.push(pair(alloc, left, right, right_key)?),
        None => Ok(()),
    }
}

// Adds the pairs with the right rows at the places of a chain.
fn add_pairs(
    alloc: Global,
    left: &Row,
    rights: &Rows,
    right_key: usize,
    head: u32,
    next: &[Option<u32>],
    rows: &mut Rows,
) -> Result<(), NoMemory>
    ensures { (places : List ℕ) → IsChain next.now 0 (Some head) places
        → OnOk result (rows.new ≡ rows.old ++ flat_map (pair_at right_key left.now rights.now) places) }
{
    let mut start = Some(head);
    for _turn in 0..next.len() {
        match start {
            None => return Ok(()),
            Some(place) => {
                // Read first, so that it is fetched beside the right row.
                let after = behind(next, place);
                add_pair(alloc, left, rights, right_key, place, rows)?;
                start = after;
            }
        }
    }
    Ok(())
}

/// The right side of a join, by its keys.
#[derive(Drop)]
struct RightSide {
    key: usize,
    width: usize,
    keep: bool,
    index: Index,
}

// Adds what a left row gives, of which the index said this: its pairs, or, where it has none and is kept, itself alone.
fn add_left(
    alloc: Global,
    left: &Row,
    said: Option<Option<u32>>,
    rights: &Rows,
    side: &RightSide,
    rows: &mut Rows,
) -> Result<(), NoMemory>
    ensures { (left_key : ℕ) → said ≡ head_of left_key (get same_key side.now.index.heads) left.now
        → IsIndex side.now.key (get same_key side.now.index.heads) side.now.index.next.items 0 rights.now
        → OnOk result (rows.new ≡ rows.old ++ (if has_key left_key left.now
        then or_alone side.now.keep side.now.width left.now (pairs_of left_key side.now.key (filter (has_key side.now.key) rights.now) left.now)
        else [])) }
{
    keys_follow_equality();
    let Some(first) = said else {
        return Ok(());
    };
    match first {
        Some(head) => add_pairs(
            alloc,
            left,
            rights,
            side.key,
            head,
            side.index.next.as_slice(),
            rows,
        ),
        None if side.keep => rows.push(alone_row(alloc, left, side.width)?),
        None => Ok(()),
    }
}

// Adds the origins of the rows without a key.
fn add_keyless(rows: &Rows, column: usize, origins: &mut Origins) -> Result<(), NoMemory>
    ensures { OnOk result (origins.new ≡ origins.old ++ keyless column rows.now) }
{
    for row in rows.as_slice() {
        if !has_key(row, column) {
            origins.push(row.origin.copy()?)?;
        }
    }
    Ok(())
}

/// The pairs of rows whose cells at `left_key` and `right_key` are equal, by left row and then by right row: the columns
/// of the left row and then those of the right one without its key. Where `keep` is true, a left row without a pair
/// stands once, with None for the columns of the right side, which has `width` columns, but its key. A row whose key is
/// not hashable takes no part, and its origin is told, those of the left rows first. A column that a row lacks counts as
/// None.
pub fn join(
    alloc: Global,
    left: &Rows,
    right: &Rows,
    left_key: usize,
    right_key: usize,
    keep: bool,
    width: usize,
) -> Result<Joined, NoMemory>
    ensures rows { IfOk result (λ j. j.rows ≡ joined_rows keep width left_key right_key left.now right.now) }
    ensures unhashable { IfOk result (λ j. j.unhashable ≡ keyless left_key left.now ++ keyless right_key right.now) }
{
    let mut unhashable = Origins::new(alloc);
    add_keyless(left, left_key, &mut unhashable)?;
    add_keyless(right, right_key, &mut unhashable)?;
    let index = index_of(alloc, right, right_key)?;
    let side = RightSide {
        key: right_key,
        width,
        keep,
        index,
    };
    let heads = heads_of(alloc, &side.index, left, left_key)?;
    let mut rows = Rows::new(alloc);
    let all = left.as_slice();
    for place in 0..left.len() {
        add_left(alloc, &all[place], heads[place], right, &side, &mut rows)?;
    }
    Ok(Joined { rows, unhashable })
}

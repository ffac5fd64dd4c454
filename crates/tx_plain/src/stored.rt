// The rows that operators gave, for those that take them.
ghost use Rattle.std.specs.Prelude.{◌≡◌, suc, ◌<◌, ◌++◌, ◌∷◌, [], ℕ, List, Some, IfOk, OnOk, length, option_map, slice_get};
ghost use Rattle.tx_values.specs.declared.row.Row.{Row};
ghost use Rattle.tx_records.specs.Records.{rows_of};
ghost use Rattle.tx_plain.specs.declared.stored.Stored.TheVariants as stored_is;
ghost use Rattle.tx_plain.specs.Calls.Holding.{row_held, rows_stored, rows_stored_at};

use crate::held::Held;
use std::alloc::Global;
use std::mem::replace;
use tx_records::RawRows;
use tx_text::NoMemory;
use tx_values::{Origin, Row, Rows};

/// The rows of an operator: the records of a file, which are read when they are asked for, or rows that were made.
#[derive(Drop)]
pub(crate) enum Stored<'a> {
    Raw(&'a RawRows),
    Made(Rows),
}

/// No rows.
pub(crate) fn nothing<'a>(alloc: Global) -> Stored<'a>
    ensures none { rows_stored result ≡ [] }
    ensures made { result ≡ stored_is.Made [] }
{
    Stored::Made(Rows::new(alloc))
}

/// Adds the rows of an operator behind those of the others.
pub(crate) fn add<'a>(all: &mut Vec<Stored<'a>>, stored: Stored<'a>) -> Result<(), NoMemory>
    ensures { OnOk result (all.new.items ≡ all.old.items ++ stored.entry ∷ []) }
{
    all.push(stored)?;
    Ok(())
}

pub(crate) fn len(stored: &Stored<'_>) -> usize
    ensures { result ≡ length (rows_stored stored.now) }
{
    match stored {
        Stored::Raw(raw) => raw.len(),
        Stored::Made(rows) => rows.len(),
    }
}

/// The row at a place.
#[tactic(auto, using(crate::proofs::Places::places))]
pub(crate) fn row_at<'b>(stored: &'b Stored<'_>, place: usize) -> Result<Held<'b>, NoMemory>
    requires { place < length (rows_stored stored.now) }
    ensures { IfOk result (λ h. slice_get (rows_stored stored.now) place ≡ Some (row_held h)) }
{
    match stored {
        Stored::Raw(raw) => Ok(Held::Own(raw.row(place)?)),
        Stored::Made(rows) => Ok(Held::Lent(&rows.as_slice()[place])),
    }
}

/// Where the row at a place comes from.
pub(crate) fn origin_at(stored: &Stored<'_>, place: usize) -> Result<Origin, NoMemory>
    requires { place < length (rows_stored stored.now) }
    ensures { (row : Row) → slice_get (rows_stored stored.now) place ≡ Some row → IfOk result (λ o. o ≡ row.origin) }
{
    match row_at(stored, place)? {
        Held::Lent(row) => row.origin.copy(),
        Held::Own(row) => {
            let Row { cells: _, origin } = row;
            Ok(origin)
        }
    }
}

// All rows of a file.
fn all_rows(alloc: Global, raw: &RawRows) -> Result<Rows, NoMemory>
    ensures { IfOk result (λ rows. rows ≡ rows_of raw.now) }
{
    let mut rows = Rows::new(alloc);
    for place in 0..raw.len() {
        rows.push(raw.row(place)?)?;
    }
    Ok(rows)
}

/// The rows as a list.
pub(crate) fn listed(alloc: Global, stored: Stored<'_>) -> Result<Rows, NoMemory>
    ensures { IfOk result (λ rows. rows ≡ rows_stored stored.entry) }
{
    match stored {
        Stored::Raw(raw) => all_rows(alloc, raw),
        Stored::Made(rows) => Ok(rows),
    }
}

/// Takes the rows of the operator of a number, and leaves none in their place. There is no operator of number 0.
pub(crate) fn take<'a>(alloc: Global, all: &mut Vec<Stored<'a>>, number: u32) -> Stored<'a>
    ensures taken { rows_stored result ≡ rows_stored_at all.old.items number }
    ensures len { length all.new.items ≡ length all.old.items }
    ensures others { (k : ℕ) → (k ≡ number → ⊥) → rows_stored_at all.new.items k ≡ rows_stored_at all.old.items k }
{
    if number == 0 {
        return nothing(alloc);
    }
    take_at(alloc, all, number as usize - 1)
}

// The same at a place.
fn take_at<'a>(alloc: Global, all: &mut Vec<Stored<'a>>, place: usize) -> Stored<'a>
    ensures taken { rows_stored result ≡ rows_stored_at all.old.items (suc place) }
    ensures len { length all.new.items ≡ length all.old.items }
    ensures others { (k : ℕ) → (k ≡ suc place → ⊥) → rows_stored_at all.new.items k ≡ rows_stored_at all.old.items k }
{
    if place < all.len() {
        replace(&mut all[place], nothing(alloc))
    } else {
        nothing(alloc)
    }
}

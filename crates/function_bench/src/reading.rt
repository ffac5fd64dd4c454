// What the files hold: the rows of a CSV file, and the text of a script.
ghost use Rattle.std.specs.Prelude.{◌≤◌, length, IfOk};
ghost use Rattle.tx_tokens.specs.Tokens.{most_characters};

use crate::refusal::Refusal;
use std::alloc::Global;
use tx_place::{Place, read_all};
use tx_records::{RawRows, source};
use tx_text::{NoMemory, PyText};
use tx_tokens::MOST_CHARACTERS;
use tx_values::{Names, Naming, Rows};

/// How many bytes a CSV file may have.
const LIMIT: u64 = 1 << 30;

/// How many bytes a script may have.
const SCRIPT_LIMIT: u64 = 262_144;

/// The operator that the rows are read by.
const OPERATOR: u32 = 1;

/// Rows with the names of their columns.
#[derive(Drop)]
pub(crate) struct Table {
    pub(crate) names: Names,
    pub(crate) rows: Rows,
}

// The rows of all good records.
fn all_rows(alloc: Global, raw: &RawRows) -> Result<Rows, NoMemory> {
    let mut rows = Rows::new(alloc);
    for at in 0..raw.len() {
        rows.push(raw.row(at)?)?;
    }
    Ok(rows)
}

/// The rows of a file whose first record names the columns.
pub(crate) fn table_of<P: Place>(
    alloc: Global,
    place: &mut P,
    name: &str,
) -> Result<Table, Refusal> {
    let bytes = read_all(alloc, place, name, LIMIT)?;
    let read = source(alloc, &bytes, &Naming { names: None }, OPERATOR)?;
    let rows = all_rows(alloc, &read.rows)?;
    Ok(Table {
        names: read.names,
        rows,
    })
}

/// The text of a script.
pub(crate) fn script_of<P: Place>(
    alloc: Global,
    place: &mut P,
    name: &str,
) -> Result<PyText, Refusal>
    ensures { IfOk result (λ text. length text ≤ most_characters) }
{
    let bytes = read_all(alloc, place, name, SCRIPT_LIMIT)?;
    let text = PyText::from_utf8(alloc, bytes.as_slice())?;
    if text.len() <= MOST_CHARACTERS {
        Ok(text)
    } else {
        Err(Refusal::Script)
    }
}

// Aggregates: a fold of a function over rows.
ghost use Rattle.std.specs.Prelude.{◌≡◌, ◌+◌, ◌≤◌, ◌<◌, ◌++◌, ◌∷◌, [], Some, IfOk, OnOk, map};
ghost use Rattle.tx_names.specs.Bind.{function_of};
ghost use Rattle.tx_pipe.specs.Pipe.{handling_of};
ghost use Rattle.tx_plain.specs.declared.handling.Want.TheVariants as want_is;
ghost use Rattle.tx_plain.specs.Calls.Tracking.{Tracks};
ghost use Rattle.tx_plain.specs.Handlers.{evaluations, handled};
ghost use Rattle.tx_plain.specs.RowWise.{of_acc_and_row};
ghost use Rattle.tx_plain.specs.Operators.{Folded, fold_evaluations, fold_on, fold_row, folded, row_of_fold};
ghost use Rattle.tx_plain.specs.Pipeline.{evaluate};
ghost use Rattle.tx_plain.specs.Calls.Holding.{rows_stored};

use crate::handling::{Handled, Want, settle};
use crate::held::seen;
use crate::stored::{Stored, len, row_at};
use std::alloc::Global;
use std::sync::ledger::Ledger;
use tx_base::{Meter, Steps};
use tx_interp::Arg;
use tx_names::Bound;
use tx_pipe::Handlers;
use tx_report::{Entries, Entry};
use tx_text::NoMemory;
use tx_values::{Items, Mark, Names, Origin, Row, Value, copy};

// The accumulator behind what was said of a row; adds its entry.
fn fold_on(
    number: u32,
    row: &Row,
    acc: Value,
    said: Handled,
    entries: &mut Entries,
) -> Result<Value, NoMemory>
    ensures { IfOk result (λ x. record { acc = x; entries = entries.new } ≡ fold_on number row.now (record { acc = acc; entries = entries.old }) said) }
{
    match said {
        Handled::Value(x) => Ok(x),
        Handled::Dropped => Ok(acc),
        Handled::Reported(class) => {
            entries.add(Entry {
                operator: number,
                class,
                origin: row.origin.copy()?,
            })?;
            Ok(acc)
        }
    }
}

// The accumulator behind a row.
fn fold_row<L: Ledger>(
    alloc: Global,
    number: u32,
    f: &Bound,
    handlers: &Handlers,
    schema: &Names,
    acc: Value,
    row: &Row,
    entries: &mut Entries,
    meter: &mut Meter,
    steps: &mut Steps<L>,
) -> Result<Value, NoMemory>
    ensures acc { IfOk result (λ x. record { acc = x; entries = entries.new } ≡ fold_row evaluate number (function_of f.now) (map handling_of handlers.now) schema.now (record { acc = acc; entries = entries.old }) row.now) }
    ensures steps { OnOk result (steps.new ≡ steps.old + evaluations evaluate want_is.Any (of_acc_and_row acc schema.now row.now) (function_of f.now) (map handling_of handlers.now)) }
    ensures most { steps.new ≤ steps.old + evaluations evaluate want_is.Any (of_acc_and_row acc schema.now row.now) (function_of f.now) (map handling_of handlers.now) }
    ensures counts { Tracks steps.old steps.new meter.old meter.new }
{
    let said = settle(
        alloc,
        f,
        Want::Any,
        handlers,
        &Arg::Plain(&acc),
        &Some(Arg::OfRow(row, schema)),
        meter,
        steps,
    )?;
    fold_on(number, row, acc, said, entries)
}

/// The accumulator behind all rows, from the left; adds the entries of those on which there was no value.
pub(crate) fn fold<L: Ledger>(
    alloc: Global,
    number: u32,
    f: &Bound,
    handlers: &Handlers,
    schema: &Names,
    init: Value,
    stored: &Stored<'_>,
    entries: &mut Entries,
    meter: &mut Meter,
    steps: &mut Steps<L>,
) -> Result<Value, NoMemory>
    ensures acc { IfOk result (λ x. record { acc = x; entries = entries.new } ≡ folded evaluate number (function_of f.now) (map handling_of handlers.now) schema.now (record { acc = init; entries = entries.old }) (rows_stored stored.now)) }
    ensures steps { OnOk result (steps.new ≡ steps.old + fold_evaluations evaluate number (function_of f.now) (map handling_of handlers.now) schema.now (record { acc = init; entries = entries.old }) (rows_stored stored.now)) }
    ensures most { steps.new ≤ steps.old + fold_evaluations evaluate number (function_of f.now) (map handling_of handlers.now) schema.now (record { acc = init; entries = entries.old }) (rows_stored stored.now) }
    ensures counts { Tracks steps.old steps.new meter.old meter.new }
{
    let mut acc = init;
    for place in 0..len(stored) {
        let held = row_at(stored, place)?;
        acc = fold_row(
            alloc,
            number,
            f,
            handlers,
            schema,
            acc,
            seen(&held),
            entries,
            meter,
            steps,
        )?;
    }
    Ok(acc)
}

/// The row of an aggregate.
pub(crate) fn row_of_fold(alloc: Global, number: u32, acc: Value) -> Result<Row, NoMemory>
    ensures { IfOk result (λ r. r ≡ row_of_fold number acc) }
{
    let mut cells = Items::new(alloc);
    cells.push(acc)?;
    let mut origin = Origin::new(alloc);
    origin.push(Mark {
        operator: number,
        number: 0,
    })?;
    Ok(Row { cells, origin })
}

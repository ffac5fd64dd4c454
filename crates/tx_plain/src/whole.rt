// Operators that take whole lists of rows.
ghost use Rattle.std.specs.Prelude.{◌≡◌, ◌+◌, ◌-◌, ◌≤◌, ◌<◌, ◌++◌, ◌∷◌, [], Bool, false, Some, None, IfOk, OnOk, length, map};
ghost use Rattle.std.specs.Option.{option_copied};
ghost use Rattle.tx_names.specs.Bind.{function_of};
ghost use Rattle.tx_pipe.specs.Pipe.{handling_of, node_of, operator_of};
ghost use Rattle.tx_pipe.specs.Column.{schema_at};
ghost use Rattle.tx_plain.specs.Calls.Tracking.{Tracks};
ghost use Rattle.tx_plain.specs.Operators.{aggregated, firsts, joined, operated, read_from, right_input, source_at, without_keys};
ghost use Rattle.tx_plain.specs.Pipeline.{evaluate};
ghost use Rattle.tx_plain.specs.Laws.{is_row_wise};
ghost use Rattle.tx_plain.specs.Calls.Holding.{rows_stored};

use crate::Sources;
use crate::folding::{fold, row_of_fold};
use crate::reporting::{add_all, add_not_ignored, add_without_keys};
use crate::row_wise::column_in;
use crate::stored::{Stored, listed, nothing};
use std::alloc::Global;
use std::sync::ledger::Ledger;
use tx_base::{Meter, Steps};
use tx_joins::{Joined, join, unique};
use tx_names::Bound;
use tx_pipe::{Handlers, Node, Operator, Schemas};
use tx_records::CsvSource;
use tx_report::Entries;
use tx_text::{Bytes, NoMemory, PyText};
use tx_values::{Names, Rows, Value, copy};

// The columns of an operator.
fn schema_at(s: &Schemas, number: u32) -> &[Bytes]
    ensures { result.now ≡ schema_at s.now number }
{
    match s.get(number.saturating_sub(1) as usize) {
        Some(names) => names.as_slice(),
        None => &[],
    }
}

// The source of an operator.
fn source_at(sources: &Sources, number: u32) -> Option<&CsvSource>
    ensures { option_copied result ≡ source_at sources.now number }
{
    match sources.get(number.saturating_sub(1) as usize) {
        Some(Some(source)) => Some(source),
        _ => None,
    }
}

// The rows of a source; adds its faults.
fn read_from<'a>(
    alloc: Global,
    handlers: &Handlers,
    source: Option<&'a CsvSource>,
    entries: &mut Entries,
) -> Result<Stored<'a>, NoMemory>
    ensures rows { IfOk result (λ r. rows_stored r ≡ (read_from (map handling_of handlers.now) (option_copied source.entry)).rows) }
    ensures entries { OnOk result (entries.new ≡ entries.old ++ (read_from (map handling_of handlers.now) (option_copied source.entry)).entries) }
{
    match source {
        None => Ok(nothing(alloc)),
        Some(source) => {
            add_not_ignored(handlers.as_slice(), source.faults.as_slice(), entries)?;
            Ok(Stored::Raw(&source.rows))
        }
    }
}

// The rows of a join or of `unique`; adds the entries of the rows without a key.
fn reported(
    number: u32,
    handlers: &Handlers,
    answer: Joined,
    entries: &mut Entries,
) -> Result<Rows, NoMemory>
    ensures rows { IfOk result (λ rows. rows ≡ answer.rows) }
    ensures entries { OnOk result (entries.new ≡ entries.old ++ without_keys number (map handling_of handlers.now) answer.unhashable) }
{
    let Joined { rows, unhashable } = answer;
    add_without_keys(number, handlers.as_slice(), &unhashable, entries)?;
    Ok(rows)
}

/// The keys of a join, and whether a left row without a match is kept.
#[derive(Clone, Copy)]
pub(crate) struct Keys<'a> {
    pub(crate) keep: bool,
    pub(crate) left: &'a PyText,
    pub(crate) right: &'a PyText,
}

// A join of rows with these columns.
fn joined(
    alloc: Global,
    keep: bool,
    number: u32,
    handlers: &Handlers,
    left: &[Bytes],
    right: &[Bytes],
    left_key: &PyText,
    right_key: &PyText,
    lefts: &Rows,
    rights: &Rows,
    entries: &mut Entries,
) -> Result<Rows, NoMemory>
    ensures rows { IfOk result (λ rows. rows ≡ (joined keep number (map handling_of handlers.now) left.now right.now left_key.now right_key.now lefts.now rights.now).rows) }
    ensures entries { OnOk result (entries.new ≡ entries.old ++ (joined keep number (map handling_of handlers.now) left.now right.now left_key.now right_key.now lefts.now rights.now).entries) }
{
    let l = column_in(left, left_key);
    let r = column_in(right, right_key);
    let answer = join(alloc, lefts, rights, l, r, keep, right.len())?;
    reported(number, handlers, answer, entries)
}

// A join of stored rows.
pub(crate) fn join_stored<'a>(
    alloc: Global,
    keep: bool,
    number: u32,
    node: &Node,
    right: u32,
    left_key: &PyText,
    right_key: &PyText,
    s: &Schemas,
    lefts: Stored<'a>,
    rights: Stored<'a>,
    entries: &mut Entries,
) -> Result<Stored<'a>, NoMemory>
    ensures rows { IfOk result (λ r. rows_stored r ≡ (joined keep number (map handling_of node.now.handlers) (schema_at s.now node.now.input) (schema_at s.now right) left_key.now right_key.now (rows_stored lefts.entry) (rows_stored rights.entry)).rows) }
    ensures entries { OnOk result (entries.new ≡ entries.old ++ (joined keep number (map handling_of node.now.handlers) (schema_at s.now node.now.input) (schema_at s.now right) left_key.now right_key.now (rows_stored lefts.entry) (rows_stored rights.entry)).entries) }
{
    let lefts = listed(alloc, lefts)?;
    let rights = listed(alloc, rights)?;
    let rows = joined(
        alloc,
        keep,
        number,
        &node.handlers,
        schema_at(s, node.input),
        schema_at(s, right),
        left_key,
        right_key,
        &lefts,
        &rights,
        entries,
    )?;
    Ok(Stored::Made(rows))
}

// The first of equal rows.
pub(crate) fn firsts<'a>(
    alloc: Global,
    number: u32,
    handlers: &Handlers,
    stored: Stored<'a>,
    entries: &mut Entries,
) -> Result<Stored<'a>, NoMemory>
    ensures rows { IfOk result (λ r. rows_stored r ≡ (firsts number (map handling_of handlers.now) (rows_stored stored.entry)).rows) }
    ensures entries { OnOk result (entries.new ≡ entries.old ++ (firsts number (map handling_of handlers.now) (rows_stored stored.entry)).entries) }
{
    let rows = listed(alloc, stored)?;
    let answer = unique(alloc, &rows)?;
    Ok(Stored::Made(reported(number, handlers, answer, entries)?))
}

// An aggregate over rows with these columns.
fn aggregated<L: Ledger>(
    alloc: Global,
    number: u32,
    f: &Bound,
    handlers: &Handlers,
    schema: &Names,
    init: &Value,
    stored: &Stored<'_>,
    entries: &mut Entries,
    meter: &mut Meter,
    steps: &mut Steps<L>,
) -> Result<Rows, NoMemory>
    ensures rows { IfOk result (λ rows. rows ≡ (aggregated evaluate number (function_of f.now) (map handling_of handlers.now) schema.now init.now (rows_stored stored.now)).rows) }
    ensures entries { OnOk result (entries.new ≡ entries.old ++ (aggregated evaluate number (function_of f.now) (map handling_of handlers.now) schema.now init.now (rows_stored stored.now)).entries) }
    ensures steps { OnOk result (steps.new ≡ steps.old + (aggregated evaluate number (function_of f.now) (map handling_of handlers.now) schema.now init.now (rows_stored stored.now)).evaluations) }
    ensures most { steps.new ≤ steps.old + (aggregated evaluate number (function_of f.now) (map handling_of handlers.now) schema.now init.now (rows_stored stored.now)).evaluations }
    ensures counts { Tracks steps.old steps.new meter.old meter.new }
{
    let mut found = Entries::new(alloc);
    let init = copy(alloc, init)?;
    let acc = fold(
        alloc, number, f, handlers, schema, init, stored, &mut found, meter, steps,
    )?;
    add_all(found.as_slice(), entries)?;
    let mut rows = Rows::new(alloc);
    rows.push(row_of_fold(alloc, number, acc)?)?;
    Ok(rows)
}

// The same, where all operators have these columns.
pub(crate) fn aggregate_stored<'a, L: Ledger>(
    alloc: Global,
    number: u32,
    node: &Node,
    f: &Bound,
    init: &Value,
    s: &Schemas,
    stored: &Stored<'_>,
    entries: &mut Entries,
    meter: &mut Meter,
    steps: &mut Steps<L>,
) -> Result<Stored<'a>, NoMemory>
    ensures rows { IfOk result (λ r. rows_stored r ≡ (aggregated evaluate number (function_of f.now) (map handling_of node.now.handlers) (schema_at s.now node.now.input) init.now (rows_stored stored.now)).rows) }
    ensures entries { OnOk result (entries.new ≡ entries.old ++ (aggregated evaluate number (function_of f.now) (map handling_of node.now.handlers) (schema_at s.now node.now.input) init.now (rows_stored stored.now)).entries) }
    ensures steps { OnOk result (steps.new ≡ steps.old + (aggregated evaluate number (function_of f.now) (map handling_of node.now.handlers) (schema_at s.now node.now.input) init.now (rows_stored stored.now)).evaluations) }
    ensures most { steps.new ≤ steps.old + (aggregated evaluate number (function_of f.now) (map handling_of node.now.handlers) (schema_at s.now node.now.input) init.now (rows_stored stored.now)).evaluations }
    ensures counts { Tracks steps.old steps.new meter.old meter.new }
{
    let rows = match s.get(node.input.saturating_sub(1) as usize) {
        Some(schema) => aggregated(
            alloc,
            number,
            f,
            &node.handlers,
            schema,
            init,
            stored,
            entries,
            meter,
            steps,
        )?,
        None => aggregated(
            alloc,
            number,
            f,
            &node.handlers,
            &Names::new(alloc),
            init,
            stored,
            entries,
            meter,
            steps,
        )?,
    };
    Ok(Stored::Made(rows))
}

/// Whether an operator goes row by row.
pub(crate) fn is_row_wise(node: &Node) -> bool
    ensures { result ≡ is_row_wise (operator_of node.now.operator) }
{
    match &node.operator {
        Operator::Map { .. }
        | Operator::Filter { .. }
        | Operator::WithColumn { .. }
        | Operator::MapColumn { .. }
        | Operator::SelectColumns { .. }
        | Operator::RenameColumn { .. }
        | Operator::ToCsv { .. } => true,
        _ => false,
    }
}

/// The number of the right input of a join, and 0 of another operator.
pub(crate) fn right_input(node: &Node) -> u32
    ensures { result ≡ right_input (operator_of node.now.operator) }
{
    match &node.operator {
        Operator::Join { right, .. } => *right,
        Operator::LeftJoin { right, .. } => *right,
        _ => 0,
    }
}

/// The rows of an operator that does not go row by row, of the rows of its inputs; adds what it reports.
pub(crate) fn operate<'a, L: Ledger>(
    alloc: Global,
    node: &Node,
    number: u32,
    s: &Schemas,
    sources: &'a Sources,
    lefts: Stored<'a>,
    rights: Stored<'a>,
    entries: &mut Entries,
    meter: &mut Meter,
    steps: &mut Steps<L>,
) -> Result<Stored<'a>, NoMemory>
    requires { is_row_wise (operator_of node.now.operator) ≡ false }
    ensures rows { IfOk result (λ r. rows_stored r ≡ (operated evaluate sources.now s.now number (node_of node.now) (operator_of node.now.operator) (rows_stored lefts.entry) (rows_stored rights.entry)).rows) }
    ensures entries { OnOk result (entries.new ≡ entries.old ++ (operated evaluate sources.now s.now number (node_of node.now) (operator_of node.now.operator) (rows_stored lefts.entry) (rows_stored rights.entry)).entries) }
    ensures steps { OnOk result (steps.new ≡ steps.old + (operated evaluate sources.now s.now number (node_of node.now) (operator_of node.now.operator) (rows_stored lefts.entry) (rows_stored rights.entry)).evaluations) }
    ensures most { steps.new ≤ steps.old + (operated evaluate sources.now s.now number (node_of node.now) (operator_of node.now.operator) (rows_stored lefts.entry) (rows_stored rights.entry)).evaluations }
    ensures counts { Tracks steps.old steps.new meter.old meter.new }
{
    match &node.operator {
        Operator::Csv { .. } => {
            read_from(alloc, &node.handlers, source_at(sources, number), entries)
        }
        Operator::Join {
            right,
            left_key,
            right_key,
        } => join_stored(
            alloc, false, number, node, *right, left_key, right_key, s, lefts, rights, entries,
        ),
        Operator::LeftJoin {
            right,
            left_key,
            right_key,
        } => join_stored(
            alloc, true, number, node, *right, left_key, right_key, s, lefts, rights, entries,
        ),
        Operator::Unique => firsts(alloc, number, &node.handlers, lefts, entries),
        Operator::Aggregate { f, init, .. } => aggregate_stored(
            alloc, number, node, f, init, s, &lefts, entries, meter, steps,
        ),
        Operator::Map { .. }
        | Operator::Filter { .. }
        | Operator::WithColumn { .. }
        | Operator::MapColumn { .. }
        | Operator::SelectColumns { .. }
        | Operator::RenameColumn { .. }
        | Operator::ToCsv { .. } => unreachable!(),
    }
}

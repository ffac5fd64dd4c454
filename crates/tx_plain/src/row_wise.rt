// Operators that go row by row, on a row.
ghost use Rattle.std.specs.Prelude.{◌≡◌, ◌+◌, ◌≤◌, ◌<◌, ◌^◌, [], IfOk, OnOk, if◌then◌else◌, length, map, true, false};
ghost use Rattle.tx_base.specs.declared.class.Class.{Class};
ghost use Rattle.tx_values.specs.Equality.{truthy};
ghost use Rattle.tx_names.specs.Bind.{function_of};
ghost use Rattle.tx_joins.specs.Join.{cell_of};
ghost use Rattle.tx_records.specs.Cell.{is_scalar};
ghost use Rattle.tx_records.specs.Output.{all_scalar};
ghost use Rattle.tx_pipe.specs.Pipe.{handling_of, node_of, operator_of};
ghost use Rattle.tx_plain.specs.declared.handling.Want.TheVariants as want_is;
ghost use Rattle.tx_plain.specs.declared.outcome.RowOutcome.TheVariants as outcome;
ghost use Rattle.tx_plain.specs.Calls.Tracking.{Tracks};
ghost use Rattle.tx_plain.specs.Handlers.{evaluations, handled, ignores, is_ignored};
ghost use Rattle.tx_plain.specs.Pipeline.{evaluate};
ghost use Rattle.tx_plain.specs.RowWise.{column_in, evaluations_by, evaluations_on, of_cell, of_row, outcome_by, outcome_of, outcome_on, put_cell, raised, result_cells, selected, want_of, with_cells, written};
ghost use Rattle.tx_plain.specs.Calls.Holding.{outcome_in, row_held};

use crate::handling::{Handled, Want, settle};
use crate::held::{Held, Passed, seen, with_cell, with_cells};
use std::alloc::Global;
use std::sync::ledger::Ledger;
use tx_base::{Class, Meter, Steps, catches};
use tx_interp::Arg;
use tx_names::Bound;
use tx_pipe::{Handler, Handlers, MapTo, Node, Operator, Schemas};
use tx_text::{Bytes, NoMemory, PyText, Texts};
use tx_values::{Items, Names, Row, Value, copy, truthy};

// ---- columns

/// The place of the first column of a name, behind the last where there is none.
#[tactic(auto, using(crate::proofs::Cells::columns))]
pub(crate) fn column_in(schema: &[Bytes], name: &PyText) -> usize
    ensures { result ≡ column_in schema.now name.now }
{
    let wanted = name.as_str().as_bytes();
    for place in 0..schema.len() {
        if wanted == schema[place].as_slice() {
            return place;
        }
    }
    schema.len()
}

// ---- what is raised without a function

/// Whether an `ignore` handler catches a class.
pub(crate) fn is_ignored(handlers: &[Handler], class: Class) -> bool
    ensures { result ≡ is_ignored (map handling_of handlers.now) class }
{
    for handler in handlers {
        if ignores(handler, class) {
            return true;
        }
    }
    false
}

fn ignores(handler: &Handler, class: Class) -> bool
    ensures { result ≡ ignores class (handling_of handler.now) }
{
    match handler {
        Handler::Ignore(c) => catches(*c, class),
        Handler::Resolve(_, _) => false,
    }
}

/// What a class makes of a row that is raised without a function.
pub(crate) fn raised<'a>(number: u32, handlers: &Handlers, class: Class) -> Passed<'a>
    ensures { outcome_in result ≡ raised number (map handling_of handlers.now) class }
{
    if is_ignored(handlers.as_slice(), class) {
        Passed::Dropped
    } else {
        Passed::Reported(number, class)
    }
}

// ---- results

// What the results of a `map` must be.
fn want_of(to: &MapTo) -> Result<Want, NoMemory>
    ensures { IfOk result (λ w. w ≡ want_of to.now) }
{
    match to {
        MapTo::Column(_) => Ok(Want::Any),
        MapTo::Columns(names) => match u32::try_from(names.len()) {
            Ok(len) => Ok(Want::TupleOf(len)),
            // So many names take more memory than there is.
            Err(_) => Err(NoMemory),
        },
    }
}

// The cells of a result.
fn result_cells(alloc: Global, to: &MapTo, x: Value) -> Result<Items, NoMemory>
    ensures { IfOk result (λ cells. cells ≡ result_cells to.now x) }
{
    match to {
        MapTo::Column(_) => {
            let mut cells = Items::new(alloc);
            cells.push(x)?;
            Ok(cells)
        }
        MapTo::Columns(_) => match x {
            Value::Tuple(items) => Ok(items),
            _ => Ok(Items::new(alloc)),
        },
    }
}

// The row of a `map`'s result.
fn mapped<'a>(
    alloc: Global,
    number: u32,
    to: &MapTo,
    said: Handled,
    held: Held<'a>,
) -> Result<Passed<'a>, NoMemory>
    ensures { IfOk result (λ o. outcome_in o ≡ outcome_of number (λ x. outcome.Out (with_cells (result_cells to.now x) (row_held held.entry))) said) }
{
    match said {
        Handled::Value(x) => {
            let cells = result_cells(alloc, to, x)?;
            Ok(Passed::Out(Held::Own(with_cells(cells, held)?)))
        }
        Handled::Dropped => Ok(Passed::Dropped),
        Handled::Reported(class) => Ok(Passed::Reported(number, class)),
    }
}

// The row where a filter's result is true.
fn filtered<'a>(number: u32, said: Handled, held: Held<'a>) -> Passed<'a>
    ensures { outcome_in result ≡ outcome_of number (λ x. if truthy x then outcome.Out (row_held held.entry) else outcome.Dropped) said }
{
    match said {
        Handled::Value(x) => {
            if truthy(&x) {
                Passed::Out(held)
            } else {
                Passed::Dropped
            }
        }
        Handled::Dropped => Passed::Dropped,
        Handled::Reported(class) => Passed::Reported(number, class),
    }
}

// The row with a result in a column.
fn replaced<'a>(
    alloc: Global,
    number: u32,
    place: usize,
    said: Handled,
    held: Held<'a>,
) -> Result<Passed<'a>, NoMemory>
    ensures { IfOk result (λ o. outcome_in o ≡ outcome_of number (λ x. outcome.Out (with_cells (put_cell place x (row_held held.entry).cells) (row_held held.entry))) said) }
{
    match said {
        Handled::Value(x) => Ok(Passed::Out(Held::Own(with_cell(alloc, held, place, x)?))),
        Handled::Dropped => Ok(Passed::Dropped),
        Handled::Reported(class) => Ok(Passed::Reported(number, class)),
    }
}

// A copy of the cell of a column.
fn copied(alloc: Global, row: &Row, column: usize) -> Result<Value, NoMemory>
    ensures { IfOk result (λ x. x ≡ cell_of column row.now) }
{
    match row.cells.get(column) {
        Some(cell) => copy(alloc, cell),
        None => Ok(Value::Nil),
    }
}

// The cells of these columns.
fn selected(alloc: Global, schema: &Names, names: &Texts, row: &Row) -> Result<Items, NoMemory>
    ensures { IfOk result (λ cells. cells ≡ selected schema.now names.now row.now) }
{
    let mut cells = Vec::with_capacity(alloc, names.len())?;
    for name in names.as_slice() {
        let column = column_in(schema.as_slice(), name);
        cells.push(copied(alloc, row, column)?)?;
    }
    Ok(Items::from_vec(cells))
}

fn selecting<'a>(
    alloc: Global,
    schema: &Names,
    names: &Texts,
    held: Held<'a>,
) -> Result<Passed<'a>, NoMemory>
    ensures { IfOk result (λ o. outcome_in o ≡ outcome.Out (with_cells (selected schema.now names.now (row_held held.entry)) (row_held held.entry))) }
{
    let cells = selected(alloc, schema, names, seen(&held))?;
    Ok(Passed::Out(Held::Own(with_cells(cells, held)?)))
}

// ---- evaluations

// What a function of a row and the handlers of its operator make of a row.
fn asked_of_row<L: Ledger>(
    alloc: Global,
    f: &Bound,
    want: Want,
    handlers: &Handlers,
    schema: &Names,
    row: &Row,
    meter: &mut Meter,
    steps: &mut Steps<L>,
) -> Result<Handled, NoMemory>
    ensures answer { IfOk result (λ h. h ≡ handled evaluate want (of_row schema.now row.now) (function_of f.now) (map handling_of handlers.now)) }
    ensures steps { OnOk result (steps.new ≡ steps.old + evaluations evaluate want (of_row schema.now row.now) (function_of f.now) (map handling_of handlers.now)) }
    ensures most { steps.new ≤ steps.old + evaluations evaluate want (of_row schema.now row.now) (function_of f.now) (map handling_of handlers.now) }
    ensures counts { Tracks steps.old steps.new meter.old meter.new }
{
    settle(
        alloc,
        f,
        want,
        handlers,
        &Arg::OfRow(row, schema),
        &None,
        meter,
        steps,
    )
}

// The same of the cell of a column.
fn asked_of_cell<L: Ledger>(
    alloc: Global,
    f: &Bound,
    handlers: &Handlers,
    column: usize,
    row: &Row,
    meter: &mut Meter,
    steps: &mut Steps<L>,
) -> Result<Handled, NoMemory>
    ensures answer { IfOk result (λ h. h ≡ handled evaluate want_is.Any (of_cell (cell_of column row.now)) (function_of f.now) (map handling_of handlers.now)) }
    ensures steps { OnOk result (steps.new ≡ steps.old + evaluations evaluate want_is.Any (of_cell (cell_of column row.now)) (function_of f.now) (map handling_of handlers.now)) }
    ensures most { steps.new ≤ steps.old + evaluations evaluate want_is.Any (of_cell (cell_of column row.now)) (function_of f.now) (map handling_of handlers.now) }
    ensures counts { Tracks steps.old steps.new meter.old meter.new }
{
    match row.cells.get(column) {
        Some(cell) => settle(
            alloc,
            f,
            Want::Any,
            handlers,
            &Arg::Plain(cell),
            &None,
            meter,
            steps,
        ),
        None => settle(
            alloc,
            f,
            Want::Any,
            handlers,
            &Arg::Plain(&Value::Nil),
            &None,
            meter,
            steps,
        ),
    }
}

// ---- operators

fn map_row<'a, L: Ledger>(
    alloc: Global,
    node: &Node,
    number: u32,
    f: &Bound,
    to: &MapTo,
    schema: &Names,
    held: Held<'a>,
    meter: &mut Meter,
    steps: &mut Steps<L>,
) -> Result<Passed<'a>, NoMemory>
    ensures answer { IfOk result (λ o. outcome_in o ≡ outcome_of number (λ x. outcome.Out (with_cells (result_cells to.now x) (row_held held.entry))) (handled evaluate (want_of to.now) (of_row schema.now (row_held held.entry)) (function_of f.now) (map handling_of node.now.handlers))) }
    ensures steps { OnOk result (steps.new ≡ steps.old + evaluations evaluate (want_of to.now) (of_row schema.now (row_held held.entry)) (function_of f.now) (map handling_of node.now.handlers)) }
    ensures most { steps.new ≤ steps.old + evaluations evaluate (want_of to.now) (of_row schema.now (row_held held.entry)) (function_of f.now) (map handling_of node.now.handlers) }
    ensures counts { Tracks steps.old steps.new meter.old meter.new }
{
    let want = want_of(to)?;
    let said = asked_of_row(
        alloc,
        f,
        want,
        &node.handlers,
        schema,
        seen(&held),
        meter,
        steps,
    )?;
    mapped(alloc, number, to, said, held)
}

fn filter_row<'a, L: Ledger>(
    alloc: Global,
    node: &Node,
    number: u32,
    f: &Bound,
    schema: &Names,
    held: Held<'a>,
    meter: &mut Meter,
    steps: &mut Steps<L>,
) -> Result<Passed<'a>, NoMemory>
    ensures answer { IfOk result (λ o. outcome_in o ≡ outcome_of number (λ x. if truthy x then outcome.Out (row_held held.entry) else outcome.Dropped) (handled evaluate want_is.Any (of_row schema.now (row_held held.entry)) (function_of f.now) (map handling_of node.now.handlers))) }
    ensures steps { OnOk result (steps.new ≡ steps.old + evaluations evaluate want_is.Any (of_row schema.now (row_held held.entry)) (function_of f.now) (map handling_of node.now.handlers)) }
    ensures most { steps.new ≤ steps.old + evaluations evaluate want_is.Any (of_row schema.now (row_held held.entry)) (function_of f.now) (map handling_of node.now.handlers) }
    ensures counts { Tracks steps.old steps.new meter.old meter.new }
{
    let said = asked_of_row(
        alloc,
        f,
        Want::Any,
        &node.handlers,
        schema,
        seen(&held),
        meter,
        steps,
    )?;
    Ok(filtered(number, said, held))
}

fn column_row<'a, L: Ledger>(
    alloc: Global,
    node: &Node,
    number: u32,
    name: &PyText,
    f: &Bound,
    schema: &Names,
    held: Held<'a>,
    meter: &mut Meter,
    steps: &mut Steps<L>,
) -> Result<Passed<'a>, NoMemory>
    ensures answer { IfOk result (λ o. outcome_in o ≡ outcome_of number (λ x. outcome.Out (with_cells (put_cell (column_in schema.now name.now) x (row_held held.entry).cells) (row_held held.entry))) (handled evaluate want_is.Any (of_row schema.now (row_held held.entry)) (function_of f.now) (map handling_of node.now.handlers))) }
    ensures steps { OnOk result (steps.new ≡ steps.old + evaluations evaluate want_is.Any (of_row schema.now (row_held held.entry)) (function_of f.now) (map handling_of node.now.handlers)) }
    ensures most { steps.new ≤ steps.old + evaluations evaluate want_is.Any (of_row schema.now (row_held held.entry)) (function_of f.now) (map handling_of node.now.handlers) }
    ensures counts { Tracks steps.old steps.new meter.old meter.new }
{
    let said = asked_of_row(
        alloc,
        f,
        Want::Any,
        &node.handlers,
        schema,
        seen(&held),
        meter,
        steps,
    )?;
    replaced(
        alloc,
        number,
        column_in(schema.as_slice(), name),
        said,
        held,
    )
}

fn cell_row<'a, L: Ledger>(
    alloc: Global,
    node: &Node,
    number: u32,
    name: &PyText,
    f: &Bound,
    schema: &Names,
    held: Held<'a>,
    meter: &mut Meter,
    steps: &mut Steps<L>,
) -> Result<Passed<'a>, NoMemory>
    ensures answer { IfOk result (λ o. outcome_in o ≡ outcome_of number (λ x. outcome.Out (with_cells (put_cell (column_in schema.now name.now) x (row_held held.entry).cells) (row_held held.entry))) (handled evaluate want_is.Any (of_cell (cell_of (column_in schema.now name.now) (row_held held.entry))) (function_of f.now) (map handling_of node.now.handlers))) }
    ensures steps { OnOk result (steps.new ≡ steps.old + evaluations evaluate want_is.Any (of_cell (cell_of (column_in schema.now name.now) (row_held held.entry))) (function_of f.now) (map handling_of node.now.handlers)) }
    ensures most { steps.new ≤ steps.old + evaluations evaluate want_is.Any (of_cell (cell_of (column_in schema.now name.now) (row_held held.entry))) (function_of f.now) (map handling_of node.now.handlers) }
    ensures counts { Tracks steps.old steps.new meter.old meter.new }
{
    let column = column_in(schema.as_slice(), name);
    let said = asked_of_cell(alloc, f, &node.handlers, column, seen(&held), meter, steps)?;
    replaced(alloc, number, column, said, held)
}

fn is_scalar(cell: &Value) -> bool
    ensures { result ≡ is_scalar cell.now }
{
    match cell {
        Value::Tuple(_) | Value::List(_) | Value::Dict(_) => false,
        _ => true,
    }
}

fn all_scalar(cells: &[Value]) -> bool
    ensures { result ≡ all_scalar cells.now }
{
    for cell in cells {
        if !is_scalar(cell) {
            return false;
        }
    }
    true
}

// The row where all its cells can be written.
fn checked<'a>(number: u32, handlers: &Handlers, held: Held<'a>) -> Passed<'a>
    ensures { outcome_in result ≡ written number (map handling_of handlers.now) (row_held held.entry) }
{
    if all_scalar(seen(&held).cells.as_slice()) {
        Passed::Out(held)
    } else {
        raised(number, handlers, Class::TypeError)
    }
}

// By an operator whose input has these columns.
fn by_operator<'a, L: Ledger>(
    alloc: Global,
    node: &Node,
    number: u32,
    schema: &Names,
    held: Held<'a>,
    meter: &mut Meter,
    steps: &mut Steps<L>,
) -> Result<Passed<'a>, NoMemory>
    ensures answer { IfOk result (λ o. outcome_in o ≡ outcome_by evaluate number (map handling_of node.now.handlers) schema.now (operator_of node.now.operator) (row_held held.entry)) }
    ensures steps { OnOk result (steps.new ≡ steps.old + evaluations_by evaluate (map handling_of node.now.handlers) schema.now (operator_of node.now.operator) (row_held held.entry)) }
    ensures most { steps.new ≤ steps.old + evaluations_by evaluate (map handling_of node.now.handlers) schema.now (operator_of node.now.operator) (row_held held.entry) }
    ensures counts { Tracks steps.old steps.new meter.old meter.new }
{
    match &node.operator {
        Operator::Map { f, to } => {
            map_row(alloc, node, number, f, to, schema, held, meter, steps)
        }
        Operator::Filter { f } => filter_row(alloc, node, number, f, schema, held, meter, steps),
        Operator::WithColumn { name, f } => {
            column_row(alloc, node, number, name, f, schema, held, meter, steps)
        }
        Operator::MapColumn { name, f } => {
            cell_row(alloc, node, number, name, f, schema, held, meter, steps)
        }
        Operator::SelectColumns { names } => selecting(alloc, schema, names, held),
        Operator::ToCsv { .. } => Ok(checked(number, &node.handlers, held)),
        _ => Ok(Passed::Out(held)),
    }
}

/// What the operator of this number makes of a row; `s` has the columns of all operators.
pub(crate) fn on_row<'a, L: Ledger>(
    alloc: Global,
    node: &Node,
    number: u32,
    s: &Schemas,
    held: Held<'a>,
    meter: &mut Meter,
    steps: &mut Steps<L>,
) -> Result<Passed<'a>, NoMemory>
    ensures answer { IfOk result (λ o. outcome_in o ≡ outcome_on evaluate s.now number (node_of node.now) (row_held held.entry)) }
    ensures steps { OnOk result (steps.new ≡ steps.old + evaluations_on evaluate s.now (node_of node.now) (row_held held.entry)) }
    ensures most { steps.new ≤ steps.old + evaluations_on evaluate s.now (node_of node.now) (row_held held.entry) }
    ensures counts { Tracks steps.old steps.new meter.old meter.new }
{
    match s.get(node.input.saturating_sub(1) as usize) {
        Some(schema) => by_operator(alloc, node, number, schema, held, meter, steps),
        None => by_operator(alloc, node, number, &Names::new(alloc), held, meter, steps),
    }
}

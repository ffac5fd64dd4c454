// Runs of operators that go row by row: each row of the input goes through all of them.
ghost use Rattle.std.specs.Prelude.{◌≡◌, ◌+◌, ◌≤◌, ◌<◌, ◌^◌, ◌++◌, ◌∷◌, [], Some, IfOk, OnOk, length, slice_get};
ghost use Rattle.std.specs.List.{sum_by};
ghost use Rattle.tx_values.specs.declared.row.Row.{Row};
ghost use Rattle.tx_pipe.specs.Pipe.{pipe_of};
ghost use Rattle.tx_plain.specs.Calls.Tracking.{Tracks};
ghost use Rattle.tx_plain.specs.RowWise.{evaluations_through, through};
ghost use Rattle.tx_plain.specs.Operators.{reports, rows_out};
ghost use Rattle.tx_plain.specs.Pipeline.{entries_of, evaluate, evaluations_of};
ghost use Rattle.tx_plain.specs.Laws.{last_rows, one_by_one};
ghost use Rattle.tx_plain.specs.Calls.Holding.{rows_stored};

use crate::held::{Passed, owned};
use crate::laws::rows_go_one_by_one;
use crate::reporting::add_by_operator;
use crate::stored::{Stored, len, origin_at, row_at};
use crate::walking::pass;
use std::alloc::Global;
use std::sync::ledger::Ledger;
use tx_base::{Class, Meter, Steps};
use tx_pipe::{Node, Schemas};
use tx_report::{Entries, Entry};
use tx_text::NoMemory;
use tx_values::Rows;

/// Adds the entry of the row at a place.
pub(crate) fn report(
    stored: &Stored<'_>,
    place: usize,
    operator: u32,
    class: Class,
    entries: &mut Entries,
) -> Result<(), NoMemory>
    requires { place < length (rows_stored stored.now) }
    ensures { (row : Row) → slice_get (rows_stored stored.now) place ≡ Some row → OnOk result (entries.new ≡ entries.old ++ record { operator = operator; class = class; origin = row.origin } ∷ []) }
{
    entries.add(Entry {
        operator,
        class,
        origin: origin_at(stored, place)?,
    })
}

// Takes the row at a place through the operators: adds what comes out, or the entry.
fn walk_row<L: Ledger>(
    alloc: Global,
    nodes: &[Node],
    number: u32,
    s: &Schemas,
    stored: &Stored<'_>,
    place: usize,
    rows: &mut Rows,
    entries: &mut Entries,
    meter: &mut Meter,
    steps: &mut Steps<L>,
) -> Result<(), NoMemory>
    requires numbers { number + length nodes.now < 2 ^ 32 }
    requires place { place < length (rows_stored stored.now) }
    ensures rows { (row : Row) → slice_get (rows_stored stored.now) place ≡ Some row → OnOk result (rows.new ≡ rows.old ++ rows_out (through evaluate s.now number (pipe_of nodes.now)) (row ∷ [])) }
    ensures entries { (row : Row) → slice_get (rows_stored stored.now) place ≡ Some row → OnOk result (entries.new ≡ entries.old ++ reports (through evaluate s.now number (pipe_of nodes.now)) (row ∷ [])) }
    ensures steps { (row : Row) → slice_get (rows_stored stored.now) place ≡ Some row → OnOk result (steps.new ≡ steps.old + evaluations_through evaluate s.now number (pipe_of nodes.now) row) }
    ensures most { (row : Row) → slice_get (rows_stored stored.now) place ≡ Some row → steps.new ≤ steps.old + evaluations_through evaluate s.now number (pipe_of nodes.now) row }
    ensures counts { Tracks steps.old steps.new meter.old meter.new }
{
    let held = row_at(stored, place)?;
    match pass(alloc, nodes, number, s, held, meter, steps)? {
        Passed::Out(out) => rows.push(owned(alloc, out)?),
        Passed::Dropped => Ok(()),
        Passed::Reported(operator, class) => report(stored, place, operator, class, entries),
    }
}

// Takes all rows through the operators, one after the other.
fn walk<L: Ledger>(
    alloc: Global,
    nodes: &[Node],
    number: u32,
    s: &Schemas,
    stored: &Stored<'_>,
    rows: &mut Rows,
    entries: &mut Entries,
    meter: &mut Meter,
    steps: &mut Steps<L>,
) -> Result<(), NoMemory>
    requires { number + length nodes.now < 2 ^ 32 }
    ensures rows { OnOk result (rows.new ≡ rows.old ++ rows_out (through evaluate s.now number (pipe_of nodes.now)) (rows_stored stored.now)) }
    ensures entries { OnOk result (entries.new ≡ entries.old ++ reports (through evaluate s.now number (pipe_of nodes.now)) (rows_stored stored.now)) }
    ensures steps { OnOk result (steps.new ≡ steps.old + sum_by (evaluations_through evaluate s.now number (pipe_of nodes.now)) (rows_stored stored.now)) }
    ensures most { steps.new ≤ steps.old + sum_by (evaluations_through evaluate s.now number (pipe_of nodes.now)) (rows_stored stored.now) }
    ensures counts { Tracks steps.old steps.new meter.old meter.new }
{
    for place in 0..len(stored) {
        walk_row(
            alloc, nodes, number, s, stored, place, rows, entries, meter, steps,
        )?;
    }
    Ok(())
}

/// The rows that a run of operators gives, of which the first has this number; adds what they report.
pub(crate) fn run_rows<L: Ledger>(
    alloc: Global,
    nodes: &[Node],
    number: u32,
    s: &Schemas,
    stored: &Stored<'_>,
    entries: &mut Entries,
    meter: &mut Meter,
    steps: &mut Steps<L>,
) -> Result<Rows, NoMemory>
    requires { number + length nodes.now < 2 ^ 32 }
    ensures rows { IfOk result (λ rows. rows ≡ last_rows (rows_stored stored.now) (one_by_one evaluate s.now number (pipe_of nodes.now) (rows_stored stored.now))) }
    ensures entries { OnOk result (entries.new ≡ entries.old ++ entries_of (one_by_one evaluate s.now number (pipe_of nodes.now) (rows_stored stored.now))) }
    ensures steps { OnOk result (steps.new ≡ steps.old + evaluations_of (one_by_one evaluate s.now number (pipe_of nodes.now) (rows_stored stored.now))) }
    ensures most { steps.new ≤ steps.old + evaluations_of (one_by_one evaluate s.now number (pipe_of nodes.now) (rows_stored stored.now)) }
    ensures counts { Tracks steps.old steps.new meter.old meter.new }
{
    rows_go_one_by_one();
    let mut rows = Rows::new(alloc);
    let mut walked = Entries::new(alloc);
    walk(
        alloc,
        nodes,
        number,
        s,
        stored,
        &mut rows,
        &mut walked,
        meter,
        steps,
    )?;
    add_by_operator(walked.as_slice(), number, nodes.len(), entries)?;
    Ok(rows)
}

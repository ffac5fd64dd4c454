// The run of operators whose last one writes: from each row of its input to the bytes of the output.
ghost use Rattle.std.specs.Prelude.{◌≡◌, ◌+◌, ◌-◌, ◌≤◌, ◌<◌, ◌^◌, ◌++◌, ◌∷◌, [], true, Some, IfOk, OnOk, length, map, slice_get};
ghost use Rattle.std.specs.List.{cons_option, sum_by};
ghost use Rattle.tx_base.specs.declared.class.Class.{Class};
ghost use Rattle.tx_values.specs.declared.row.Row.{Row};
ghost use Rattle.tx_records.specs.Output.{line_of};
ghost use Rattle.tx_pipe.specs.Pipe.{handling_of, node_of, operator_of, pipe_of};
ghost use Rattle.tx_pipe.specs.Lawful.{ends_once};
ghost use Rattle.tx_plain.specs.Calls.Tracking.{Tracks};
ghost use Rattle.tx_plain.specs.RowWise.{entry_in, evaluations_through, go_on, row_in, through, written};
ghost use Rattle.tx_plain.specs.Operators.{reports, rows_out};
ghost use Rattle.tx_plain.specs.Pipeline.{entries_of, evaluate, evaluations_of, lines_of, output_text};
ghost use Rattle.tx_plain.specs.Laws.{last_rows, one_by_one};
ghost use Rattle.tx_plain.specs.Calls.Holding.{outcome_in, rows_stored};

use crate::held::{Passed, seen};
use crate::laws::rows_go_one_by_one;
use crate::reporting::add_by_operator;
use crate::row_wise::is_ignored;
use crate::runs::report;
use crate::stored::{Stored, len, row_at};
use crate::walking::pass;
use std::alloc::Global;
use std::sync::ledger::Ledger;
use tx_base::{Class, Meter, Steps};
use tx_pipe::{Node, Schemas};
use tx_records::{CellError, Output};
use tx_report::Entries;
use tx_text::{Bytes, NoMemory};
use tx_values::Names;

/// The bytes of an output, and how many rows they have.
#[derive(Drop)]
pub(crate) struct Written {
    pub(crate) bytes: Bytes,
    pub(crate) rows: u64,
}

// An output on its way.
#[derive(Drop)]
struct Writing {
    output: Output,
    rows: u64,
}

// Sends what came through the operators before to the one that writes: adds the line of a row, or the entry where it has a
// container.
fn send<'a>(
    node: &Node,
    number: u32,
    passed: Passed<'a>,
    stored: &Stored<'_>,
    place: usize,
    writing: &mut Writing,
    entries: &mut Entries,
) -> Result<(), NoMemory>
    requires place { place < length (rows_stored stored.now) }
    requires rows { writing.old.rows < 2 ^ 64 - 1 }
    ensures lines { OnOk result (writing.new.output ≡ writing.old.output ++ lines_of (cons_option (row_in (go_on (written number (map handling_of node.now.handlers)) (outcome_in passed.entry))) [])) }
    ensures rows { OnOk result (writing.new.rows ≡ writing.old.rows + length (cons_option (row_in (go_on (written number (map handling_of node.now.handlers)) (outcome_in passed.entry))) [])) }
    ensures entries { (row : Row) → slice_get (rows_stored stored.now) place ≡ Some row → OnOk result (entries.new ≡ entries.old ++ cons_option (entry_in row.origin (go_on (written number (map handling_of node.now.handlers)) (outcome_in passed.entry))) []) }
{
    match passed {
        Passed::Out(held) => match writing.output.add_row(seen(&held)) {
            Ok(()) => {
                writing.rows += 1;
                Ok(())
            }
            Err(CellError::NotScalar) => {
                if is_ignored(node.handlers.as_slice(), Class::TypeError) {
                    Ok(())
                } else {
                    report(stored, place, number, Class::TypeError, entries)
                }
            }
            Err(CellError::NoMemory) => Err(NoMemory),
        },
        Passed::Dropped => Ok(()),
        Passed::Reported(operator, class) => report(stored, place, operator, class, entries),
    }
}

// Takes the row at a place through the operators.
#[tactic(auto, using(crate::proofs::Endings::writing))]
fn write_row<L: Ledger>(
    alloc: Global,
    before: &[Node],
    last: &Node,
    number: u32,
    s: &Schemas,
    stored: &Stored<'_>,
    place: usize,
    writing: &mut Writing,
    entries: &mut Entries,
    meter: &mut Meter,
    steps: &mut Steps<L>,
) -> Result<(), NoMemory>
    requires end { ends_once (pipe_of before.now ++ node_of last.now ∷ []) ≡ true }
    requires numbers { number + length before.now < 2 ^ 32 }
    requires place { place < length (rows_stored stored.now) }
    requires rows { writing.old.rows < 2 ^ 64 - 1 }
    ensures lines { (row : Row) → slice_get (rows_stored stored.now) place ≡ Some row → OnOk result (writing.new.output ≡ writing.old.output ++ lines_of (rows_out (through evaluate s.now number (pipe_of before.now ++ node_of last.now ∷ [])) (row ∷ []))) }
    ensures rows { (row : Row) → slice_get (rows_stored stored.now) place ≡ Some row → OnOk result (writing.new.rows ≡ writing.old.rows + length (rows_out (through evaluate s.now number (pipe_of before.now ++ node_of last.now ∷ [])) (row ∷ []))) }
    ensures entries { (row : Row) → slice_get (rows_stored stored.now) place ≡ Some row → OnOk result (entries.new ≡ entries.old ++ reports (through evaluate s.now number (pipe_of before.now ++ node_of last.now ∷ [])) (row ∷ [])) }
    ensures steps { (row : Row) → slice_get (rows_stored stored.now) place ≡ Some row → OnOk result (steps.new ≡ steps.old + evaluations_through evaluate s.now number (pipe_of before.now ++ node_of last.now ∷ []) row) }
    ensures most { (row : Row) → slice_get (rows_stored stored.now) place ≡ Some row → steps.new ≤ steps.old + evaluations_through evaluate s.now number (pipe_of before.now ++ node_of last.now ∷ []) row }
    ensures counts { Tracks steps.old steps.new meter.old meter.new }
{
    let held = row_at(stored, place)?;
    let passed = pass(alloc, before, number, s, held, meter, steps)?;
    let at = number + before.len() as u32;
    send(last, at, passed, stored, place, writing, entries)
}

// Takes all rows through the operators, one after the other.
fn write_rows<L: Ledger>(
    alloc: Global,
    before: &[Node],
    last: &Node,
    number: u32,
    s: &Schemas,
    stored: &Stored<'_>,
    writing: &mut Writing,
    entries: &mut Entries,
    meter: &mut Meter,
    steps: &mut Steps<L>,
) -> Result<(), NoMemory>
    requires end { ends_once (pipe_of before.now ++ node_of last.now ∷ []) ≡ true }
    requires numbers { number + length before.now < 2 ^ 32 }
    requires rows { writing.old.rows ≡ 0 }
    ensures lines { OnOk result (writing.new.output ≡ writing.old.output ++ lines_of (rows_out (through evaluate s.now number (pipe_of before.now ++ node_of last.now ∷ [])) (rows_stored stored.now))) }
    ensures rows { OnOk result (writing.new.rows ≡ length (rows_out (through evaluate s.now number (pipe_of before.now ++ node_of last.now ∷ [])) (rows_stored stored.now))) }
    ensures entries { OnOk result (entries.new ≡ entries.old ++ reports (through evaluate s.now number (pipe_of before.now ++ node_of last.now ∷ [])) (rows_stored stored.now)) }
    ensures steps { OnOk result (steps.new ≡ steps.old + sum_by (evaluations_through evaluate s.now number (pipe_of before.now ++ node_of last.now ∷ [])) (rows_stored stored.now)) }
    ensures most { steps.new ≤ steps.old + sum_by (evaluations_through evaluate s.now number (pipe_of before.now ++ node_of last.now ∷ [])) (rows_stored stored.now) }
    ensures counts { Tracks steps.old steps.new meter.old meter.new }
{
    for place in 0..len(stored) {
        write_row(
            alloc, before, last, number, s, stored, place, writing, entries, meter, steps,
        )?;
    }
    Ok(())
}

// An output with its header.
fn begun(alloc: Global, header: &Names) -> Result<Writing, NoMemory>
    ensures output { IfOk result (λ w. w.output ≡ line_of header.now) }
    ensures rows { IfOk result (λ w. w.rows ≡ 0) }
{
    let mut output = Output::new(alloc);
    output.add_header(header)?;
    Ok(Writing { output, rows: 0 })
}

// The operators before the last, and the last.
fn split_last(nodes: &[Node]) -> (&[Node], &Node)
    requires { 1 ≤ length nodes.now }
    ensures { nodes.now ≡ result.0.now ++ result.1.now ∷ [] }
{
    match nodes {
        [before @ .., last] => (before, last),
        [] => unreachable!(),
    }
}

/// The output of a run of operators whose last one writes, under this header; adds what they report. The first has this number.
pub(crate) fn run_output<L: Ledger>(
    alloc: Global,
    nodes: &[Node],
    number: u32,
    s: &Schemas,
    header: &Names,
    stored: &Stored<'_>,
    entries: &mut Entries,
    meter: &mut Meter,
    steps: &mut Steps<L>,
) -> Result<Written, NoMemory>
    requires end { ends_once (pipe_of nodes.now) ≡ true }
    requires numbers { number + length nodes.now < 2 ^ 32 }
    ensures bytes { IfOk result (λ w. w.bytes ≡ output_text header.now (last_rows (rows_stored stored.now) (one_by_one evaluate s.now number (pipe_of nodes.now) (rows_stored stored.now)))) }
    ensures rows { IfOk result (λ w. w.rows ≡ length (last_rows (rows_stored stored.now) (one_by_one evaluate s.now number (pipe_of nodes.now) (rows_stored stored.now)))) }
    ensures entries { OnOk result (entries.new ≡ entries.old ++ entries_of (one_by_one evaluate s.now number (pipe_of nodes.now) (rows_stored stored.now))) }
    ensures steps { OnOk result (steps.new ≡ steps.old + evaluations_of (one_by_one evaluate s.now number (pipe_of nodes.now) (rows_stored stored.now))) }
    ensures most { steps.new ≤ steps.old + evaluations_of (one_by_one evaluate s.now number (pipe_of nodes.now) (rows_stored stored.now)) }
    ensures counts { Tracks steps.old steps.new meter.old meter.new }
{
    rows_go_one_by_one();
    let mut writing = begun(alloc, header)?;
    let mut walked = Entries::new(alloc);
    let (before, last) = split_last(nodes);
    write_rows(
        alloc,
        before,
        last,
        number,
        s,
        stored,
        &mut writing,
        &mut walked,
        meter,
        steps,
    )?;
    add_by_operator(walked.as_slice(), number, nodes.len(), entries)?;
    let Writing { output, rows } = writing;
    Ok(Written {
        bytes: output.into_bytes()?,
        rows,
    })
}

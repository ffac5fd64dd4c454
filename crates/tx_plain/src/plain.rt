// A pipe over its sources.
ghost use Rattle.std.specs.Prelude.{◌≡◌, ◌+◌, ◌-◌, ◌<◌, ◌≤◌, ◌^◌, ◌++◌, ◌∷◌, ◌&&◌, ◌==◌, [], ℕ, List, true, false, IfOk, OnOk, Some, Option, drop, length, map, replicate, slice_get, take};
ghost use Rattle.tx_pipe.specs.Pipe.{PipeNode, operator_of, pipe_of, verb_of};
ghost use Rattle.tx_pipe.specs.Verbs.{verb_word};
ghost use Rattle.tx_pipe.specs.Column.{schema_at};
ghost use Rattle.tx_pipe.specs.Lawful.{Lawful, ends_once};
ghost use Rattle.tx_plain.specs.Counts.{Follows};
ghost use Rattle.tx_plain.specs.Calls.Tracking.{Tracks};
ghost use Rattle.tx_plain.specs.Operators.{Made, made_next, rows_at};
ghost use Rattle.tx_plain.specs.Pipeline.{all_made, answered, evaluate, evaluations_of, entries_of, kinds_of};
ghost use Rattle.tx_plain.specs.Laws.{follow, is_row_wise, is_run, one_by_one};
ghost use Rattle.tx_plain.specs.Calls.Standing.{Worked};
ghost use Rattle.tx_report.specs.Report.{report_text};
ghost use Rattle.tx_names.specs.Function.{Function};
ghost use Rattle.tx_records.specs.declared.csv_source.CsvSource.{CsvSource};
ghost use Rattle.tx_plain.specs.declared.stored.Stored.TheVariants as stored_is;

use crate::laws::runs_are_lists;
use crate::runs::run_rows;
use crate::stored::{Stored, add, nothing, take};
use crate::whole::{is_row_wise, operate, right_input};
use crate::writing::{Written, run_output};
use std::alloc::Global;
use std::sync::ledger::Ledger;
use tx_base::{Meter, Steps};
use tx_pipe::{Node, Pipe, Schemas};
use tx_records::CsvSource;
use tx_report::Entries;
use tx_text::{Bytes, NoMemory, PyText, Sequence, Texts};
use tx_values::Names;

/// The sources of a pipe, each at the place of its operator.
pub type Sources = Sequence<Option<CsvSource>>;

/// What a pipe gives: the bytes of the output and of the report, and how many rows and entries they have.
#[derive(Drop)]
pub struct Answer {
    pub output: Bytes,
    pub report: Bytes,
    pub rows: u64,
    pub reported: u64,
}

// ---- runs

// How many operators follow the one of this number, each with the one before as its input.
fn follow_len(nodes: &[Node], number: u32) -> usize
    requires { number + length nodes.now < 2 ^ 32 }
    ensures few { result ≤ length nodes.now }
    ensures follow { follow number (take result (pipe_of nodes.now)) ≡ true }
{
    let [node, behind @ ..] = nodes else {
        return 0;
    };
    if node.input == number && is_row_wise(node) {
        1 + follow_len(behind, number + 1)
    } else {
        0
    }
}

// Whether an operator goes row by row and is the input of the next one, where its number is this one.
fn goes_before(before: &Node, node: &Node, number: usize) -> bool
    ensures { result ≡ (is_row_wise (operator_of before.now.operator) && node.now.input == number) }
{
    is_row_wise(before) && node.input as usize == number
}

// Where the run begins that ends with the last operator.
fn last_run(nodes: &[Node]) -> usize
    requires end { ends_once (pipe_of nodes.now) ≡ true }
    requires numbers { length nodes.now < 2 ^ 31 }
    ensures within { result < length nodes.now }
    ensures run { is_run (result + 1) (drop result (pipe_of nodes.now)) ≡ true }
{
    let mut start = nodes.len() - 1;
    'back: while start > 0 {
        if goes_before(&nodes[start - 1], &nodes[start], start) {
            start -= 1;
        } else {
            return start;
        }
    }
    start
}

// ---- operators

// What the operators so far gave: the rows that others take, and what was reported.
#[derive(Drop)]
struct Work<'a> {
    stored: Vec<Stored<'a>>,
    entries: Entries,
}

// Adds so many empty lists: what operators gave that no other takes.
fn push_nothing(alloc: Global, stored: &mut Vec<Stored<'_>>, count: usize) -> Result<(), NoMemory>
    ensures { OnOk result (stored.new.items ≡ stored.old.items ++ replicate count (stored_is.Made [])) }
{
    for turn in 0..count {
        add(stored, nothing(alloc))?;
    }
    Ok(())
}

// An operator that takes whole lists.
fn step_whole<'a, L: Ledger>(
    alloc: Global,
    nodes: &[Node],
    at: usize,
    s: &Schemas,
    sources: &'a Sources,
    work: &mut Work<'a>,
    meter: &mut Meter,
    steps: &mut Steps<L>,
) -> Result<(), NoMemory>
    requires lawful { Lawful (pipe_of nodes.now) }
    requires within { at < length nodes.now }
    requires whole { (n : PipeNode (Function ℕ)) → slice_get (pipe_of nodes.now) at ≡ Some n → is_row_wise n.operation ≡ false }
    ensures worked { (start : ℕ) → Worked sources.now s.now (pipe_of nodes.now) at start steps.old work.old.stored.items work.old.entries → OnOk result (Worked sources.now s.now (pipe_of nodes.now) (at + 1) start steps.new work.new.stored.items work.new.entries) }
    ensures most { (start : ℕ) → Worked sources.now s.now (pipe_of nodes.now) at start steps.old work.old.stored.items work.old.entries → steps.new ≤ start + evaluations_of (all_made evaluate sources.now s.now (pipe_of nodes.now)) }
    ensures counts { Tracks steps.old steps.new meter.old meter.new }
{
    let node = &nodes[at];
    let lefts = take(alloc, &mut work.stored, node.input);
    let rights = take(alloc, &mut work.stored, right_input(node));
    let number = at as u32 + 1;
    let made = operate(
        alloc,
        node,
        number,
        s,
        sources,
        lefts,
        rights,
        &mut work.entries,
        meter,
        steps,
    )?;
    add(&mut work.stored, made)
}

// A run of so many operators.
fn step_run<'a, L: Ledger>(
    alloc: Global,
    nodes: &[Node],
    at: usize,
    count: usize,
    s: &Schemas,
    sources: &'a Sources,
    work: &mut Work<'a>,
    meter: &mut Meter,
    steps: &mut Steps<L>,
) -> Result<(), NoMemory>
    requires lawful { Lawful (pipe_of nodes.now) }
    requires some { 1 ≤ count }
    requires within { at + count ≤ length nodes.now }
    requires run { is_run (at + 1) (take count (drop at (pipe_of nodes.now))) ≡ true }
    ensures worked { (start : ℕ) → Worked sources.now s.now (pipe_of nodes.now) at start steps.old work.old.stored.items work.old.entries → OnOk result (Worked sources.now s.now (pipe_of nodes.now) (at + count) start steps.new work.new.stored.items work.new.entries) }
    ensures most { (start : ℕ) → Worked sources.now s.now (pipe_of nodes.now) at start steps.old work.old.stored.items work.old.entries → steps.new ≤ start + evaluations_of (all_made evaluate sources.now s.now (pipe_of nodes.now)) }
    ensures counts { Tracks steps.old steps.new meter.old meter.new }
{
    runs_are_lists();
    let node = &nodes[at];
    let stored = take(alloc, &mut work.stored, node.input);
    let run = &nodes[at..at + count];
    let number = at as u32 + 1;
    let rows = run_rows(
        alloc,
        run,
        number,
        s,
        &stored,
        &mut work.entries,
        meter,
        steps,
    )?;
    push_nothing(alloc, &mut work.stored, count - 1)?;
    add(&mut work.stored, Stored::Made(rows))
}

// The operator at a place, with those that follow it up to an end: answers how many these are.
fn step<'a, L: Ledger>(
    alloc: Global,
    nodes: &[Node],
    at: usize,
    end: usize,
    s: &Schemas,
    sources: &'a Sources,
    work: &mut Work<'a>,
    meter: &mut Meter,
    steps: &mut Steps<L>,
) -> Result<usize, NoMemory>
    requires lawful { Lawful (pipe_of nodes.now) }
    requires before { at < end }
    requires within { end ≤ length nodes.now }
    ensures some { IfOk result (λ count. 1 ≤ count) }
    ensures within { IfOk result (λ count. at + count ≤ end) }
    ensures worked { (start : ℕ) → Worked sources.now s.now (pipe_of nodes.now) at start steps.old work.old.stored.items work.old.entries → IfOk result (λ count. Worked sources.now s.now (pipe_of nodes.now) (at + count) start steps.new work.new.stored.items work.new.entries) }
    ensures most { (start : ℕ) → Worked sources.now s.now (pipe_of nodes.now) at start steps.old work.old.stored.items work.old.entries → steps.new ≤ start + evaluations_of (all_made evaluate sources.now s.now (pipe_of nodes.now)) }
    ensures counts { Tracks steps.old steps.new meter.old meter.new }
{
    if is_row_wise(&nodes[at]) {
        let count = 1 + follow_len(&nodes[at + 1..end], at as u32 + 1);
        step_run(alloc, nodes, at, count, s, sources, work, meter, steps)?;
        Ok(count)
    } else {
        step_whole(alloc, nodes, at, s, sources, work, meter, steps)?;
        Ok(1)
    }
}

// The operators up to an end.
fn work_through<'a, L: Ledger>(
    alloc: Global,
    nodes: &[Node],
    end: usize,
    s: &Schemas,
    sources: &'a Sources,
    meter: &mut Meter,
    steps: &mut Steps<L>,
) -> Result<Work<'a>, NoMemory>
    requires lawful { Lawful (pipe_of nodes.now) }
    requires within { end ≤ length nodes.now }
    ensures worked { IfOk result (λ work. Worked sources.now s.now (pipe_of nodes.now) end steps.old steps.new work.stored.items work.entries) }
    ensures most { steps.new ≤ steps.old + evaluations_of (all_made evaluate sources.now s.now (pipe_of nodes.now)) }
    ensures counts { Tracks steps.old steps.new meter.old meter.new }
{
    let mut work = Work {
        stored: Vec::new(alloc),
        entries: Entries::new(alloc),
    };
    let mut at = 0usize;
    'operators: while at < end {
        at += step(alloc, nodes, at, end, s, sources, &mut work, meter, steps)?;
    }
    Ok(work)
}

// ---- the answer

// The word of an operator.
#[tactic(auto, using(crate::proofs::VerbWords::word_chars))]
fn kind_of(alloc: Global, node: &Node) -> Result<PyText, NoMemory>
    ensures { IfOk result (λ t. t ≡ verb_word (verb_of (operator_of node.now.operator))) }
{
    PyText::from_str(alloc, node.operator.verb().word())
}

// The words of the operators.
fn kinds_of(alloc: Global, nodes: &[Node]) -> Result<Texts, NoMemory>
    ensures { IfOk result (λ kinds. kinds ≡ kinds_of (pipe_of nodes.now)) }
{
    let mut kinds = Texts::new(alloc);
    for node in nodes {
        kinds.push(kind_of(alloc, node)?)?;
    }
    Ok(kinds)
}

// What was written, and the report.
fn answer_of(
    alloc: Global,
    nodes: &[Node],
    written: Written,
    entries: &Entries,
) -> Result<Answer, NoMemory>
    ensures { IfOk result (λ a. a ≡ record { output = written.bytes; report = report_text (kinds_of (pipe_of nodes.now)) entries.now; rows = written.rows; reported = length entries.now }) }
{
    let report = entries.text(alloc, &kinds_of(alloc, nodes)?)?;
    let Written { bytes, rows } = written;
    Ok(Answer {
        output: bytes,
        report,
        rows,
        reported: entries.len() as u64,
    })
}

// The last run writes, under these columns.
fn finish_under<L: Ledger>(
    alloc: Global,
    nodes: &[Node],
    at: usize,
    s: &Schemas,
    header: &Names,
    work: Work<'_>,
    meter: &mut Meter,
    steps: &mut Steps<L>,
) -> Result<Answer, NoMemory>
    requires lawful { Lawful (pipe_of nodes.now) }
    requires within { at < length nodes.now }
    requires run { is_run (at + 1) (drop at (pipe_of nodes.now)) ≡ true }
    requires header { header.now ≡ schema_at s.now (length nodes.now) }
    ensures answer { (sources : List (Option CsvSource)) (start : ℕ) → Worked sources s.now (pipe_of nodes.now) at start steps.old work.entry.stored.items work.entry.entries → IfOk result (λ a. a ≡ answered evaluate sources s.now (pipe_of nodes.now)) }
    ensures steps { (sources : List (Option CsvSource)) (start : ℕ) → Worked sources s.now (pipe_of nodes.now) at start steps.old work.entry.stored.items work.entry.entries → OnOk result (steps.new ≡ start + evaluations_of (all_made evaluate sources s.now (pipe_of nodes.now))) }
    ensures most { (sources : List (Option CsvSource)) (start : ℕ) → Worked sources s.now (pipe_of nodes.now) at start steps.old work.entry.stored.items work.entry.entries → steps.new ≤ start + evaluations_of (all_made evaluate sources s.now (pipe_of nodes.now)) }
    ensures counts { Tracks steps.old steps.new meter.old meter.new }
{
    runs_are_lists();
    let Work {
        mut stored,
        mut entries,
    } = work;
    let node = &nodes[at];
    let taken = take(alloc, &mut stored, node.input);
    let written = run_output(
        alloc,
        &nodes[at..],
        at as u32 + 1,
        s,
        header,
        &taken,
        &mut entries,
        meter,
        steps,
    )?;
    answer_of(alloc, nodes, written, &entries)
}

// The last run writes.
fn finish<L: Ledger>(
    alloc: Global,
    nodes: &[Node],
    at: usize,
    s: &Schemas,
    work: Work<'_>,
    meter: &mut Meter,
    steps: &mut Steps<L>,
) -> Result<Answer, NoMemory>
    requires lawful { Lawful (pipe_of nodes.now) }
    requires within { at < length nodes.now }
    requires run { is_run (at + 1) (drop at (pipe_of nodes.now)) ≡ true }
    ensures answer { (sources : List (Option CsvSource)) (start : ℕ) → Worked sources s.now (pipe_of nodes.now) at start steps.old work.entry.stored.items work.entry.entries → IfOk result (λ a. a ≡ answered evaluate sources s.now (pipe_of nodes.now)) }
    ensures steps { (sources : List (Option CsvSource)) (start : ℕ) → Worked sources s.now (pipe_of nodes.now) at start steps.old work.entry.stored.items work.entry.entries → OnOk result (steps.new ≡ start + evaluations_of (all_made evaluate sources s.now (pipe_of nodes.now))) }
    ensures most { (sources : List (Option CsvSource)) (start : ℕ) → Worked sources s.now (pipe_of nodes.now) at start steps.old work.entry.stored.items work.entry.entries → steps.new ≤ start + evaluations_of (all_made evaluate sources s.now (pipe_of nodes.now)) }
    ensures counts { Tracks steps.old steps.new meter.old meter.new }
{
    match s.get(nodes.len() - 1) {
        Some(header) => finish_under(alloc, nodes, at, s, header, work, meter, steps),
        None => finish_under(alloc, nodes, at, s, &Names::new(alloc), work, meter, steps),
    }
}

// `run_plain`, for the nodes of a pipe.
fn run<L: Ledger>(
    alloc: Global,
    nodes: &[Node],
    s: &Schemas,
    sources: &Sources,
    meter: &mut Meter,
    steps: &mut Steps<L>,
) -> Result<Answer, NoMemory>
    requires lawful { Lawful (pipe_of nodes.now) }
    ensures answer { IfOk result (λ a. a ≡ answered evaluate sources.now s.now (pipe_of nodes.now)) }
    ensures steps { OnOk result (steps.new ≡ steps.old + evaluations_of (all_made evaluate sources.now s.now (pipe_of nodes.now))) }
    ensures most { steps.new ≤ steps.old + evaluations_of (all_made evaluate sources.now s.now (pipe_of nodes.now)) }
    ensures counts { Tracks steps.old steps.new meter.old meter.new }
{
    let end = last_run(nodes);
    let work = work_through(alloc, nodes, end, s, sources, meter, steps)?;
    finish(alloc, nodes, end, s, work, meter, steps)
}

/// Runs the operators of a pipe over its sources: the bytes of the output and of the report, and how many rows and entries they
/// have. `s` has the columns of each operator.
pub fn run_plain<L: Ledger>(
    alloc: Global,
    p: &Pipe,
    s: &Schemas,
    sources: &Sources,
    meter: &mut Meter,
    steps: &mut Steps<L>,
) -> Result<Answer, NoMemory>
    requires lawful { Lawful (pipe_of p.now) }
    ensures answer { IfOk result (λ a. a ≡ answered evaluate sources.now s.now (pipe_of p.now)) }
    ensures steps { OnOk result (steps.new ≡ steps.old + evaluations_of (all_made evaluate sources.now s.now (pipe_of p.now))) }
    ensures most { steps.new ≤ steps.old + evaluations_of (all_made evaluate sources.now s.now (pipe_of p.now)) }
    ensures counts { Follows steps.old steps.new meter.old meter.new }
{
    let answer = run(alloc, p.as_slice(), s, sources, meter, steps);
    let _interp = meter.interp;
    answer
}

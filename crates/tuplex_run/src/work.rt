// The work of a run: what it writes and says of its pipe and its sources.
ghost use Rattle.std.specs.Prelude.{◌≡◌, ℕ, ◌≤◌, ◌+◌, ◌-◌, ◌∷◌, [], IfOk, IfErr};
ghost use Rattle.std.specs.Option.{option_copied};
ghost use Rattle.tx_pipe.specs.Pipe.{operator_of, output_file, pipe_of};
ghost use Rattle.tx_pipe.specs.Lawful.{Lawful};
ghost use Rattle.tx_plain.specs.Counts.{Follows};
ghost use Rattle.tuplex_run.specs.Commands.{deed_with, line_of, output_name, run_deed};
ghost use Rattle.tuplex_run.specs.Calls.Accept.{as_deed, as_ready};

use crate::Outcome;
use crate::accept::{Accepted, Prepared};
use std::alloc::Global;
use std::sync::ledger::Ledger;
use tx_base::{Meter, Steps};
use tx_pipe::{Node, Operator};
use tx_place::Files;
use tx_plain::{Answer, run_plain};
use tx_script::report_name;
use tx_text::{Bytes, NoMemory, PyText};

// The console line.
fn line(alloc: Global, rows: u64, reported: u64) -> Result<Bytes, NoMemory>
    ensures { IfOk result (λ bytes. bytes ≡ line_of rows reported) }
{
    let text = format!(in alloc; "rows {rows} exceptions {reported}\n")?;
    let mut line = Bytes::new(alloc);
    line.push_all(text.as_bytes())?;
    Ok(line)
}

// The file that an operator writes.
fn output_file(operator: &Operator) -> Option<&PyText>
    ensures { option_copied result ≡ output_file (operator_of operator.now) }
{
    match operator {
        Operator::ToCsv { file } => Some(file),
        _ => None,
    }
}

// The file that the pipe writes.
#[tactic(auto, using(crate::proofs::Runs::outputs))]
fn output_name(alloc: Global, nodes: &[Node]) -> Result<PyText, NoMemory>
    ensures { IfOk result (λ name. name ≡ output_name (pipe_of nodes.now)) }
{
    for node in nodes {
        if let Some(file) = output_file(&node.operator) {
            return PyText::from_str(alloc, file.as_str());
        }
    }
    Ok(PyText::new(alloc))
}

fn two_files(
    alloc: Global,
    first: (PyText, Bytes),
    second: (PyText, Bytes),
) -> Result<Files, NoMemory>
    ensures { IfOk result (λ files. files ≡ first ∷ second ∷ []) }
{
    let mut files = Files::new(alloc);
    files.push(first)?;
    files.push(second)?;
    Ok(files)
}

// What is written and said of an answer.
fn files_of(
    alloc: Global,
    nodes: &[Node],
    stats: bool,
    answer: Answer,
) -> Result<Accepted, NoMemory>
    ensures { (evaluations : ℕ) → IfOk result (λ run. as_deed run evaluations ≡ deed_with (output_name (pipe_of nodes.now)) stats answer evaluations) }
{
    let Answer {
        output,
        report,
        rows,
        reported,
    } = answer;
    let line = line(alloc, rows, reported)?;
    let name = output_name(alloc, nodes)?;
    let beside = report_name(&name)?;
    let writes = two_files(alloc, (name, output), (beside, report))?;
    Ok(Accepted {
        writes,
        line,
        stats,
        rows,
        reported,
    })
}

// Runs a script on its files.
fn run_over<L: Ledger>(
    alloc: Global,
    prepared: &Prepared,
    stats: bool,
    meter: &mut Meter,
    steps: &mut Steps<L>,
) -> Result<Accepted, NoMemory>
    requires { Lawful (pipe_of prepared.now.pipe) }
    ensures deed { IfOk result (λ run. as_deed run (steps.new - steps.old) ≡ run_deed stats (as_ready prepared.now)) }
    ensures most { steps.new ≤ steps.old + (run_deed stats (as_ready prepared.now)).evaluations }
    ensures counts { Follows steps.old steps.new meter.old meter.new }
{
    let Prepared {
        pipe,
        sources,
        columns,
    } = prepared;
    match run_plain(alloc, pipe, columns, sources, meter, steps) {
        Ok(answer) => files_of(alloc, pipe.as_slice(), stats, answer),
        Err(_) => Err(NoMemory),
    }
}

/// Runs a script on its files. Where `stats` holds, its counts are said too.
pub(crate) fn work<L: Ledger>(
    alloc: Global,
    prepared: &Prepared,
    stats: bool,
    meter: &mut Meter,
    steps: &mut Steps<L>,
) -> Result<Accepted, Outcome>
    requires { Lawful (pipe_of prepared.now.pipe) }
    ensures deed { IfOk result (λ run. as_deed run (steps.new - steps.old) ≡ run_deed stats (as_ready prepared.now)) }
    ensures memory { IfErr result (λ refusal. refusal ≡ Outcome.NoMemory) }
    ensures most { steps.new ≤ steps.old + (run_deed stats (as_ready prepared.now)).evaluations }
    ensures counts { Follows steps.old steps.new meter.old meter.new }
{
    match run_over(alloc, prepared, stats, meter, steps) {
        Ok(run) => Ok(run),
        Err(_) => Err(Outcome::NoMemory),
    }
}

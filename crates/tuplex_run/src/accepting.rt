// All that comes before the first byte is written: the words, and what the command that they ask for is to write and say.
ghost use Rattle.std.specs.Prelude.{◌≡◌, ◌⊎◌, ◌-◌, true, None, IfOk, IfErr, IsErrOf, OnOk, IsSome, ℕ, Option};
ghost use mathlib.Core.Logic.{inr};
ghost use Rattle.tx_words.specs.Words.{command_of};
ghost use Rattle.tx_words.specs.declared.command.Command.TheVariants.{Run, Check};
ghost use Rattle.tx_plain.specs.Counts.{Follows};
ghost use Rattle.tuplex_run.specs.Due.{IsVerdict, IsReadBy, on_command};
ghost use Rattle.tuplex_run.specs.Ends.{FailedAmong};
ghost use Rattle.tuplex_run.specs.Calls.Accept.{as_deed};
ghost use Rattle.tuplex_run.specs.Calls.Refusals.{OnlyRead, NoReadFailed, Refusal, CommandRefusal, IsReadIn, RefusalSteps};

use crate::accept::Accepted;
use crate::answers::{checked, generated};
use crate::reading::prepare;
use crate::work::work;
use crate::{Outcome, Words};
use std::alloc::Global;
use std::sync::ledger::Ledger;
use tx_base::{Meter, Steps};
use tx_place::Place;
use tx_text::PyText;
use tx_words::{Command, command_of};

// A run of a script: how many rows are a sample, and in which order the passes come, is all the same.
fn run_script<P: Place, L: Ledger>(
    alloc: Global,
    place: &mut P,
    script: &PyText,
    stats: bool,
    meter: &mut Meter,
    steps: &mut Steps<L>,
) -> Result<Accepted, Outcome>
    ensures only { OnlyRead (P.state place.old) (P.state place.new) }
    ensures still { OnOk result (NoReadFailed (P.state place.old) (P.state place.new)) }
    ensures accepted { (sample : ℕ) (order : Option ℕ) → (P.state place.old).tells ≡ true
        → IfOk result (λ run. on_command (P.state place.old).held (Run script.now sample order stats) (inr (as_deed run (steps.new - steps.old)))) }
    ensures refused { (sample : ℕ) (order : Option ℕ)
        → IfErr result (CommandRefusal (Run script.now sample order stats) (P.state place.old) (P.state place.new)) }
    ensures named { (sample : ℕ) (order : Option ℕ) → (P.state place.old).tells ≡ true → (P.state place.old).names_faults ≡ true
        → FailedAmong (IsReadIn (Run script.now sample order stats) (P.state place.old).held) (P.state place.old) (P.state place.new) }
    ensures steps { (sample : ℕ) (order : Option ℕ) → IfErr result (RefusalSteps ((P.state place.old).tells ≡ true)
        (λ deed. on_command (P.state place.old).held (Run script.now sample order stats) (inr deed)) steps.old steps.new) }
    ensures counts { Follows steps.old steps.new meter.old meter.new }
{
    let _interp = meter.interp;
    match prepare(alloc, place, script) {
        Err(refusal) => Err(refusal),
        Ok(prepared) => work(alloc, &prepared, stats, meter, steps),
    }
}

// A check of a script.
fn check_script<P: Place>(
    alloc: Global,
    place: &mut P,
    script: &PyText,
) -> Result<Accepted, Outcome>
    ensures only { OnlyRead (P.state place.old) (P.state place.new) }
    ensures still { OnOk result (NoReadFailed (P.state place.old) (P.state place.new)) }
    ensures accepted { (P.state place.old).tells ≡ true
        → IfOk result (λ run. on_command (P.state place.old).held (Check script.now) (inr (as_deed run 0))) }
    ensures refused { IfErr result (CommandRefusal (Check script.now) (P.state place.old) (P.state place.new)) }
    ensures named { (P.state place.old).tells ≡ true → (P.state place.old).names_faults ≡ true
        → FailedAmong (IsReadIn (Check script.now) (P.state place.old).held) (P.state place.old) (P.state place.new) }
{
    match prepare(alloc, place, script) {
        Err(refusal) => Err(refusal),
        Ok(_) => checked(alloc),
    }
}

// A command.
fn accept_command<P: Place, L: Ledger>(
    alloc: Global,
    command: &Command,
    place: &mut P,
    meter: &mut Meter,
    steps: &mut Steps<L>,
) -> Result<Accepted, Outcome>
    ensures only { OnlyRead (P.state place.old) (P.state place.new) }
    ensures still { OnOk result (NoReadFailed (P.state place.old) (P.state place.new)) }
    ensures accepted { (P.state place.old).tells ≡ true
        → IfOk result (λ run. on_command (P.state place.old).held command.now (inr (as_deed run (steps.new - steps.old)))) }
    ensures refused { IfErr result (CommandRefusal command.now (P.state place.old) (P.state place.new)) }
    ensures named { (P.state place.old).tells ≡ true → (P.state place.old).names_faults ≡ true
        → FailedAmong (IsReadIn command.now (P.state place.old).held) (P.state place.old) (P.state place.new) }
    ensures steps { IfErr result (RefusalSteps ((P.state place.old).tells ≡ true)
        (λ deed. on_command (P.state place.old).held command.now (inr deed)) steps.old steps.new) }
    ensures counts { Follows steps.old steps.new meter.old meter.new }
{
    let _interp = meter.interp;
    match command {
        Command::Run { script, stats, .. } => run_script(
            alloc, place, script, *stats, meter, steps,
        ),
        Command::Check { script } => check_script(alloc, place, script),
        Command::Generate { seed, rows, file } => generated(alloc, *seed, *rows, file),
    }
}

/// All that comes before the first byte is written.
pub(crate) fn accept<P: Place, L: Ledger>(
    alloc: Global,
    words: &Words,
    place: &mut P,
    meter: &mut Meter,
    steps: &mut Steps<L>,
) -> Result<Accepted, Outcome>
    ensures only { OnlyRead (P.state place.old) (P.state place.new) }
    ensures still { OnOk result (NoReadFailed (P.state place.old) (P.state place.new)) }
    ensures accepted { (P.state place.old).tells ≡ true
        → IfOk result (λ run. IsVerdict words.now (P.state place.old).held (inr (as_deed run (steps.new - steps.old)))) }
    ensures asked { OnOk result (IsSome (command_of words.now)) }
    ensures unread { command_of words.now ≡ None → (IsErrOf result Outcome.Words) ⊎ (IsErrOf result Outcome.NoMemory) }
    ensures refused { IfErr result (Refusal words.now (P.state place.old) (P.state place.new)) }
    ensures named { (P.state place.old).tells ≡ true → (P.state place.old).names_faults ≡ true
        → FailedAmong (IsReadBy words.now (P.state place.old).held) (P.state place.old) (P.state place.new) }
    ensures steps { IfErr result (RefusalSteps ((P.state place.old).tells ≡ true)
        (λ deed. IsVerdict words.now (P.state place.old).held (inr deed)) steps.old steps.new) }
    ensures counts { Follows steps.old steps.new meter.old meter.new }
{
    let _interp = meter.interp;
    match command_of(alloc, words) {
        Err(_) => Err(Outcome::NoMemory),
        Ok(None) => Err(Outcome::Words),
        Ok(Some(command)) => accept_command(alloc, &command, place, meter, steps),
    }
}

// A command, from its words to its outcome.
ghost use Rattle.std.specs.Prelude.{◌≡◌, true};
ghost use Rattle.tuplex_run.specs.Outside.{outside};
ghost use Rattle.tuplex_run.specs.Complaint.{complaint};
ghost use Rattle.tuplex_run.specs.Ends.{RunsPlainly, Ended, Complained, OtherCommands};
ghost use Rattle.tuplex_run.specs.Calls.Finish.{OnlySays};

use crate::accepting::accept;
use crate::closing::close;
use crate::laws::verdicts_are_one;
use crate::writing::finish;
use crate::{Outcome, Words};
use std::alloc::Global;
use std::sync::ledger::Ledger;
use tx_base::{Meter, Steps};
use tx_place::{Console, Place};

/// All but the complaint.
fn carry_out<P: Place, C: Console, L: Ledger>(
    alloc: Global,
    words: &Words,
    place: &mut P,
    console: &mut C,
    meter: &mut Meter,
    steps: &mut Steps<L>,
) -> Outcome
    requires interp { meter.old.interp ≡ 0 }
    requires typed { meter.old.typed ≡ 0 }
    ensures ended { Ended words.now
        (outside (P.state place.old) (C.state console.old) steps.old meter.old)
        (outside (P.state place.new) (C.state console.new) steps.new meter.new) result }
    ensures console { OnlySays (C.state console.old) (C.state console.new) }
{
    match accept(alloc, words, place, meter, steps) {
        Err(refusal) => refusal,
        Ok(run) => finish(alloc, place, console, &run, meter),
    }
}

/// Runs the command that the words ask for.
///
/// `words` are those behind the program's own name. The script, its inputs and the files that it writes are those of
/// `place`, by their names; what it says and complains goes to `console`. `specs/Ends.antt` says how it ends: the
/// headline, when each outcome comes, what stands afterwards, and so what a check and a generated table are.
pub fn run_words<P: Place, C: Console, L: Ledger>(
    alloc: Global,
    words: &Words,
    place: &mut P,
    console: &mut C,
    meter: &mut Meter,
    steps: &mut Steps<L>,
) -> Outcome
    requires interp { meter.old.interp ≡ 0 }
    requires typed { meter.old.typed ≡ 0 }
    ensures headline { RunsPlainly words.now
        (outside (P.state place.old) (C.state console.old) steps.old meter.old)
        (outside (P.state place.new) (C.state console.new) steps.new meter.new) result }
    ensures ended { Ended words.now
        (outside (P.state place.old) (C.state console.old) steps.old meter.old)
        (outside (P.state place.new) (C.state console.new) steps.new meter.new) result }
    ensures others { (P.state place.old).tells ≡ true → OtherCommands words.now
        (outside (P.state place.old) (C.state console.old) steps.old meter.old)
        (outside (P.state place.new) (C.state console.new) steps.new meter.new) result }
    ensures complained { (C.state console.old).tells ≡ true
        → Complained (complaint result) (C.state console.old) (C.state console.new) }
    ensures console { (C.state console.new).tells ≡ (C.state console.old).tells }
{
    verdicts_are_one();
    let outcome = carry_out(alloc, words, place, console, meter, steps);
    close(alloc, console, outcome)
}

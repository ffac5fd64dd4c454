// The complaint at the end.
ghost use Rattle.std.specs.Prelude.{◌≡◌, ◌⊎◌, IfOk, true};
ghost use Rattle.tuplex_run.specs.Complaint.{complaint};
ghost use Rattle.tuplex_run.specs.Ends.{Complained};
ghost use Rattle.tuplex_run.specs.Calls.Finish.{OnlyComplains, Turns};

use crate::Outcome;
use crate::complaint::{column_complaint, complaint_of, script_complaint};
use std::alloc::Global;
use tx_place::Console;
use tx_text::{Bytes, NoMemory};

const USAGE: &[u8] =
    b"usage: tuplex run SCRIPT [--sample N] [--order K] [--stats] | check SCRIPT | generate SEED ROWS FILE\n";

const OUT_OF_MEMORY: &[u8] = b"tuplex: out of memory\n";

/// Complains. A refusal of that is of no account.
fn complain<C: Console>(console: &mut C, bytes: &[u8])
    ensures only { OnlyComplains (C.state console.old) (C.state console.new) }
    ensures complained { (C.state console.old).tells ≡ true
        → Complained bytes.now (C.state console.old) (C.state console.new) }
{
    let _ = console.complain(bytes);
}

fn no_memory<C: Console>(console: &mut C) -> Outcome
    ensures is { result ≡ Outcome.NoMemory }
    ensures only { OnlyComplains (C.state console.old) (C.state console.new) }
    ensures complained { (C.state console.old).tells ≡ true
        → Complained (complaint result) (C.state console.old) (C.state console.new) }
{
    complain(console, OUT_OF_MEMORY);
    Outcome::NoMemory
}

/// Complains of an outcome in its text, where memory was found for it.
fn complain_in<C: Console>(
    console: &mut C,
    text: Result<Bytes, NoMemory>,
    outcome: Outcome,
) -> Outcome
    requires { IfOk text (λ bytes. bytes ≡ complaint outcome) }
    ensures turns { (result ≡ outcome) ⊎ (result ≡ Outcome.NoMemory) }
    ensures only { OnlyComplains (C.state console.old) (C.state console.new) }
    ensures complained { (C.state console.old).tells ≡ true
        → Complained (complaint result) (C.state console.old) (C.state console.new) }
{
    match text {
        Ok(text) => {
            complain(console, text.as_slice());
            outcome
        }
        Err(_) => no_memory(console),
    }
}

/// Complains of the outcome. Where the complaint's text finds no memory, the outcome turns into that.
pub(crate) fn close<C: Console>(alloc: Global, console: &mut C, outcome: Outcome) -> Outcome
    ensures turns { Turns outcome result }
    ensures only { OnlyComplains (C.state console.old) (C.state console.new) }
    ensures complained { (C.state console.old).tells ≡ true
        → Complained (complaint result) (C.state console.old) (C.state console.new) }
{
    match outcome {
        Outcome::Done { rows, reported } => Outcome::Done { rows, reported },
        Outcome::ConsoleFault => Outcome::ConsoleFault,
        Outcome::Words => {
            complain(console, USAGE);
            Outcome::Words
        }
        Outcome::NoMemory => no_memory(console),
        Outcome::Script(fault) => {
            let text = script_complaint(alloc, &fault);
            complain_in(console, text, Outcome::Script(fault))
        }
        Outcome::Columns(fault) => {
            let text = column_complaint(alloc, &fault);
            complain_in(console, text, Outcome::Columns(fault))
        }
        Outcome::TooLarge { name } => {
            let text = complaint_of(alloc, &name, b": too large\n");
            complain_in(console, text, Outcome::TooLarge { name })
        }
        Outcome::ReadFault { name } => {
            let text = complaint_of(alloc, &name, b": read failed\n");
            complain_in(console, text, Outcome::ReadFault { name })
        }
        Outcome::WriteFault { name } => {
            let text = complaint_of(alloc, &name, b": write failed\n");
            complain_in(console, text, Outcome::WriteFault { name })
        }
    }
}

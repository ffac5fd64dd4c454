//! Times a function on rows: `function_bench JOB SCRIPT FILE ROUNDS` reads a function from a script and the rows of a CSV file,
//! calls it on each row, so many times over, and prints a sum over the answers and how often each class was raised.
//! `bench/functions` compares it with CPython.
#![tactic(auto)]

ghost use Rattle.std.specs.Prelude.{◌≡◌};

mod function;
mod job;
mod reading;
mod refusal;
mod run;
mod tally;
mod timed;

use refusal::Refusal;
use run::run;
use std::alloc::Global;
use std::env;
use std::env::Env;
use std::process::ExitCode;
use tx_place::{Console, RealConsole, RealPlace};
use tx_text::{NoMemory, PyText, Texts};

// The words behind the program's own name; none where one of them is no text.
fn words<R: Env + Alloc>(alloc: Global, rt: &R) -> Result<Texts, NoMemory> {
    let mut words = Texts::new(alloc);
    let Ok(args) = env::args(rt) else {
        return Ok(words);
    };
    for arg in args.skip(1) {
        words.push(PyText::from_str(alloc, arg.as_str())?)?;
    }
    Ok(words)
}

fn main(rt: HostRuntime) -> ExitCode {
    let alloc = rt.alloc();
    let Ok(words) = words(alloc, &rt) else {
        return ExitCode::from(Refusal::NoMemory.status());
    };
    let mut console = RealConsole::new(rt.stdout(), rt.stderr());
    let mut place = RealPlace::new(alloc, rt);
    match run(alloc, words.as_slice(), &mut place, &mut console) {
        Ok(()) => ExitCode::SUCCESS,
        Err(refusal) => {
            let _ = console.complain(refusal.complaint().as_bytes());
            ExitCode::from(refusal.status())
        }
    }
}

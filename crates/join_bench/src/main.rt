//! Times a join or `unique`: `join_bench JOB STRIDE ROUNDS FILE..` reads CSV files, does the job so many times over, and prints
//! its word, how many rows the answer has and a sum over the cells of one row in STRIDE. `bench/joins` compares it with CPython.
#![tactic(auto)]

ghost use Rattle.std.specs.Prelude.{◌≡◌};

mod job;
mod reading;
mod refusal;
mod run;
mod tally;

use refusal::Refusal;
use run::run;
use std::alloc::Global;
use std::env;
use std::env::Env;
use std::process::ExitCode;
use tx_place::{Console, RealConsole, RealPlace};
use tx_text::{NoMemory, PyText, Texts};

// The words behind the program's own name; none where one of them is no text.
fn words<R: Env + Alloc>(alloc: Global, rt: &R) -> Result<Texts, NoMemory> {
    let mut words = Texts::new(alloc);
    let Ok(args) = env::args(rt) else {
        return Ok(words);
    };
    for arg in args.skip(1) {
        words.push(PyText::from_str(alloc, arg.as_str())?)?;
    }
    Ok(words)
}

fn main(rt: HostRuntime) -> ExitCode {
    let alloc = rt.alloc();
    let Ok(words) = words(alloc, &rt) else {
        return ExitCode::from(Refusal::NoMemory.status());
    };
    let mut console = RealConsole::new(rt.stdout(), rt.stderr());
    let mut place = RealPlace::new(alloc, rt);
    match run(alloc, words.as_slice(), &mut place, &mut console) {
        Ok(()) => ExitCode::SUCCESS,
        Err(refusal) => {
            let _ = console.complain(refusal.complaint().as_bytes());
            ExitCode::from(refusal.status())
        }
    }
}

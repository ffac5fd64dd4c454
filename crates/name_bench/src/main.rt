//! Times the binding of names: `name_bench FILE MORE` reads the tree of the file's first block, a def of one parameter, binds
//! it once and MORE times more, and prints how many slots it has. `bench/names` compares it with CPython.
#![tactic(auto)]

mod run;
mod timed;

use run::{Refusal, run};
use std::alloc::Global;
use std::env;
use std::env::Env;
use std::process::ExitCode;
use tx_place::{Console, RealConsole, RealPlace};
use tx_text::{NoMemory, PyText, Texts};

// The words behind the program's own name; none where one of them is no text.
fn words<R: Env + Alloc>(alloc: Global, rt: &R) -> Result<Texts, NoMemory> {
    let mut words = Texts::new(alloc);
    let Ok(args) = env::args(rt) else {
        return Ok(words);
    };
    for arg in args.skip(1) {
        words.push(PyText::from_str(alloc, arg.as_str())?)?;
    }
    Ok(words)
}

// The line to the standard error.
fn complaint(refusal: Refusal) -> &'static str {
    match refusal {
        Refusal::Words => "name_bench: the words are FILE MORE\n",
        Refusal::File => "name_bench: the file was not read\n",
        Refusal::NoDef => "name_bench: the file does not begin with a def that has slots\n",
        Refusal::NoMemory => "name_bench: out of memory\n",
        Refusal::Line => "name_bench: the line was not printed\n",
    }
}

// The status of the program.
fn status(refusal: Refusal) -> u8 {
    match refusal {
        Refusal::Words => 2,
        Refusal::NoDef => 3,
        Refusal::File => 6,
        Refusal::NoMemory => 8,
        Refusal::Line => 9,
    }
}

fn main(rt: HostRuntime) -> ExitCode {
    let alloc = rt.alloc();
    let Ok(words) = words(alloc, &rt) else {
        return ExitCode::from(status(Refusal::NoMemory));
    };
    let mut console = RealConsole::new(rt.stdout(), rt.stderr());
    let mut place = RealPlace::new(alloc, rt);
    match run(alloc, words.as_slice(), &mut place, &mut console) {
        Ok(()) => ExitCode::SUCCESS,
        Err(refusal) => {
            let _ = console.complain(complaint(refusal).as_bytes());
            ExitCode::from(status(refusal))
        }
    }
}

//! The program: it makes the words, the place, the console and the counts, and ends with the status of the outcome.
#![tactic(auto)]

ghost use Rattle.std.specs.Prelude.{◌≡◌, ℕ, ◌<◌, true};
ghost use Rattle.tx_base.specs.declared.meter.Meter.{Meter};
ghost use Rattle.tuplex_run.specs.Outside.{outside, at_start};
ghost use Rattle.tuplex_run.specs.Complaint.{complaint};
ghost use Rattle.tuplex_run.specs.Ends.{RunsPlainly, Ended, Complained, OtherCommands};

use std::alloc::Global;
use std::env;
use std::env::Env;
use std::fs::{File, Files};
use std::io::ErrorKind;
use std::marker::Brand;
use std::process::ExitCode;
use std::sync::ledger::{Blank, Ledger};
use tuplex_run::{Outcome, run_words, status};
use tx_base::{Meter, Steps};
use tx_place::{Console, Place, RealConsole, RealPlace};
use tx_text::{NoMemory, PyText, Texts};

/// A file of nothing.
const NOTHING: &str = "/dev/null";

// Opening a file takes the lowest descriptor that is free. So where some of the three standard ones are closed, the
// first of these files take their places, and no file of the command's does: what is written there then fails, since
// these are open for reading alone.
fn standard_descriptors<R: Files>(files: &R) -> [Option<R::File>; 3] {
    [
        File::open(files, NOTHING).ok(),
        File::open(files, NOTHING).ok(),
        File::open(files, NOTHING).ok(),
    ]
}

// The words behind the program's own name; none where one of them is no text, which no command reads.
fn words<R: Env + Alloc>(alloc: Global, rt: &R) -> Result<Texts, NoMemory> {
    let mut words = Texts::new(alloc);
    match env::args(rt) {
        Ok(args) => {
            for arg in args.skip(1) {
                words.push(PyText::from_str(alloc, arg.as_str())?)?;
            }
            Ok(words)
        }
        Err(e) => {
            if e.kind() == ErrorKind::OutOfMemory {
                Err(NoMemory)
            } else {
                Ok(words)
            }
        }
    }
}

// The whole command, with counts of its own: so many steps were taken in the end.
fn run<P: Place, C: Console, L: Ledger>(
    alloc: Global,
    words: &Texts,
    place: &mut P,
    console: &mut C,
    blank: Blank,
) -> Outcome
    requires name { blank.name ≡ L.name }
    requires parts { blank.parts ≡ L.parts }
    requires some { 0 < L.parts }
    ensures ends { (taken : ℕ) × (counts : Meter)
        × (let old = at_start (P.state place.old) (C.state console.old) in
        let new = outside (P.state place.new) (C.state console.new) taken counts in
        RunsPlainly words.now old new result × Ended words.now old new result
        × (old.place.tells ≡ true → OtherCommands words.now old new result)) }
    ensures complained { (C.state console.old).tells ≡ true
        → Complained (complaint result) (C.state console.old) (C.state console.new) }
    ensures console { (C.state console.new).tells ≡ (C.state console.old).tells }
{
    let mut meter = Meter::new();
    let mut steps = Steps::<L>::open(blank);
    run_words(alloc, words, place, console, &mut meter, &mut steps)
}

fn main(rt: HostRuntime) -> ExitCode {
    let _held = standard_descriptors(&rt);
    let alloc = rt.alloc();
    let Ok(words) = words(alloc, &rt) else {
        return ExitCode::from(status(&Outcome::NoMemory));
    };
    let mut console = RealConsole::new(rt.stdout(), rt.stderr());
    let mut place = RealPlace::new(alloc, rt);
    let outcome = run::<RealPlace<HostRuntime>, _, Brand>(
        alloc,
        &words,
        &mut place,
        &mut console,
        Blank::new(1),
    );
    ExitCode::from(status(&outcome))
}

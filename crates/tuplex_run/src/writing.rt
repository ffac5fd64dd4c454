// Writing the files, and saying the line.
ghost use Rattle.std.specs.Prelude.{◌≡◌, ◌++◌, ◌∷◌, [], true, Contains, OnOk, OnErr, IfOk, IfErr};
ghost use Rattle.std.specs.Str.{chars};
ghost use Rattle.tx_place.specs.Count.{CountsFault};
ghost use Rattle.tx_place.specs.Place.{KeepsTelling, NamesFault, with_file};
ghost use Rattle.tuplex_run.specs.Partly.{IsPartly};
ghost use Rattle.tuplex_run.specs.Deed.{names_of, written, IsWrittenPartly};
ghost use Rattle.tuplex_run.specs.Commands.{stats_line};
ghost use Rattle.tuplex_run.specs.Ends.{FailedAmong};
ghost use Rattle.tuplex_run.specs.Calls.Accept.{text_of};
ghost use Rattle.tuplex_run.specs.Calls.Finish.{NoWriteFailed, WriteRefusal, FinishCause, FilesLeft, LineLeft, OnlySays};

use crate::Outcome;
use crate::accept::Accepted;
use std::alloc::Global;
use tx_base::Meter;
use tx_place::{CallError, Console, Place};
use tx_text::{Bytes, NoMemory, PyText};

/// The most bytes of one append.
const PIECE: usize = 65_536;

/// Creates the file and appends all the bytes to it.
pub(crate) fn write_file<P: Place>(place: &mut P, name: &str, bytes: &[u8]) -> Result<(), CallError>
    ensures telling { KeepsTelling (P.state place.old) (P.state place.new) }
    ensures reads { (P.state place.new).read_faults ≡ (P.state place.old).read_faults }
    ensures writes { CountsFault result (P.state place.old).write_faults (P.state place.new).write_faults }
    ensures named { (P.state place.old).names_faults ≡ true
        → NamesFault result (chars name.now) (P.state place.old).failed (P.state place.new).failed }
    ensures held { (P.state place.old).tells ≡ true
        → OnOk result ((P.state place.new).held ≡ with_file (P.state place.old).held (chars name.now) bytes.now) }
    ensures refused { (P.state place.old).tells ≡ true
        → OnErr result (IsPartly (P.state place.old).held (chars name.now) bytes.now (P.state place.new).held) }
{
    place.create(name)?;
    let mut at = 0;
    while at < bytes.len() {
        let left = bytes.len() - at;
        let end = if left > PIECE {
            at + PIECE
        } else {
            bytes.len()
        };
        place.append(name, &bytes[at..end])?;
        at = end;
    }
    Ok(())
}

fn write_named<P: Place>(
    alloc: Global,
    place: &mut P,
    name: &PyText,
    bytes: &[u8],
) -> Result<(), Outcome>
    ensures telling { KeepsTelling (P.state place.old) (P.state place.new) }
    ensures reads { (P.state place.new).read_faults ≡ (P.state place.old).read_faults }
    ensures still { OnOk result (NoWriteFailed (P.state place.old) (P.state place.new)) }
    ensures held { (P.state place.old).tells ≡ true
        → OnOk result ((P.state place.new).held ≡ with_file (P.state place.old).held name.now bytes.now) }
    ensures refused { IfErr result (WriteRefusal (name.now ∷ []) (P.state place.old) (P.state place.new)) }
    ensures named { (P.state place.old).names_faults ≡ true
        → FailedAmong (Contains (name.now ∷ [])) (P.state place.old) (P.state place.new) }
    ensures partly { (P.state place.old).tells ≡ true
        → OnErr result (IsPartly (P.state place.old).held name.now bytes.now (P.state place.new).held) }
{
    match write_file(place, name.as_str(), bytes) {
        Ok(()) => Ok(()),
        Err(CallError::NoMemory) => Err(Outcome::NoMemory),
        Err(CallError::Failed) => match PyText::from_str(alloc, name.as_str()) {
            Ok(name) => Err(Outcome::WriteFault { name }),
            Err(_) => Err(Outcome::NoMemory),
        },
    }
}

/// Writes the files in their order.
fn write_all<P: Place>(
    alloc: Global,
    place: &mut P,
    writes: &[(PyText, Bytes)],
) -> Result<(), Outcome>
    ensures telling { KeepsTelling (P.state place.old) (P.state place.new) }
    ensures reads { (P.state place.new).read_faults ≡ (P.state place.old).read_faults }
    ensures still { OnOk result (NoWriteFailed (P.state place.old) (P.state place.new)) }
    ensures held { (P.state place.old).tells ≡ true
        → OnOk result ((P.state place.new).held ≡ written writes.now (P.state place.old).held) }
    ensures refused { IfErr result (WriteRefusal (names_of writes.now) (P.state place.old) (P.state place.new)) }
    ensures named { (P.state place.old).names_faults ≡ true
        → FailedAmong (Contains (names_of writes.now)) (P.state place.old) (P.state place.new) }
    ensures partly { (P.state place.old).tells ≡ true
        → OnErr result (IsWrittenPartly writes.now (P.state place.old).held (P.state place.new).held) }
{
    match writes {
        [] => Ok(()),
        [first, rest @ ..] => {
            write_named(alloc, place, &first.0, first.1.as_slice())?;
            write_all(alloc, place, rest)
        }
    }
}

// Adds the line of counts.
fn push_stats(alloc: Global, text: &mut Bytes, meter: &Meter) -> Result<(), NoMemory>
    ensures { OnOk result (text.new ≡ text.old ++ stats_line meter.now.interp meter.now.typed) }
{
    let interp = meter.interp;
    let typed = meter.typed;
    let line = format!(in alloc; "interp {interp} typed {typed}\n")?;
    text.push_all(line.as_bytes())
}

// All that is said.
fn text_of(alloc: Global, run: &Accepted, meter: &Meter) -> Result<Bytes, NoMemory>
    ensures { IfOk result (λ text. text ≡ text_of run.now meter.now) }
{
    let mut text = Bytes::new(alloc);
    text.push_all(run.line.as_slice())?;
    if run.stats {
        push_stats(alloc, &mut text, meter)?;
    }
    Ok(text)
}

// Writes the files, and says this text.
fn write_and_say<P: Place, C: Console>(
    alloc: Global,
    place: &mut P,
    console: &mut C,
    run: &Accepted,
    text: &[u8],
) -> Outcome
    ensures telling { KeepsTelling (P.state place.old) (P.state place.new) }
    ensures reads { (P.state place.new).read_faults ≡ (P.state place.old).read_faults }
    ensures cause { FinishCause run.now (P.state place.old) (P.state place.new)
        (C.state console.old) (C.state console.new) result }
    ensures named { (P.state place.old).names_faults ≡ true
        → FailedAmong (Contains (names_of run.now.writes)) (P.state place.old) (P.state place.new) }
    ensures stands { (P.state place.old).tells ≡ true
        → FilesLeft run.now.writes (P.state place.old).held (P.state place.new).held result }
    ensures console { OnlySays (C.state console.old) (C.state console.new) }
    ensures said { (C.state console.old).tells ≡ true
        → LineLeft text.now (C.state console.old) (C.state console.new) result }
{
    if let Err(refusal) = write_all(alloc, place, run.writes.as_slice()) {
        return refusal;
    }
    match console.say(text) {
        Ok(()) => Outcome::Done {
            rows: run.rows,
            reported: run.reported,
        },
        Err(CallError::Failed) => Outcome::ConsoleFault,
        Err(CallError::NoMemory) => Outcome::NoMemory,
    }
}

/// Writes the files of an accepted command, and says its line, with the counts of the meter where these are asked for.
pub(crate) fn finish<P: Place, C: Console>(
    alloc: Global,
    place: &mut P,
    console: &mut C,
    run: &Accepted,
    meter: &Meter,
) -> Outcome
    ensures telling { KeepsTelling (P.state place.old) (P.state place.new) }
    ensures reads { (P.state place.new).read_faults ≡ (P.state place.old).read_faults }
    ensures cause { FinishCause run.now (P.state place.old) (P.state place.new)
        (C.state console.old) (C.state console.new) result }
    ensures named { (P.state place.old).names_faults ≡ true
        → FailedAmong (Contains (names_of run.now.writes)) (P.state place.old) (P.state place.new) }
    ensures stands { (P.state place.old).tells ≡ true
        → FilesLeft run.now.writes (P.state place.old).held (P.state place.new).held result }
    ensures console { OnlySays (C.state console.old) (C.state console.new) }
    ensures said { (C.state console.old).tells ≡ true
        → LineLeft (text_of run.now meter.now) (C.state console.old) (C.state console.new) result }
{
    match text_of(alloc, run, meter) {
        Ok(text) => write_and_say(alloc, place, console, run, text.as_slice()),
        Err(_) => Outcome::NoMemory,
    }
}

// The command as a whole, over files in memory.
ghost use Rattle.std.specs.Prelude.{◌≡◌, ◌<◌};

use std::alloc::Global;
use std::marker::Brand;
use std::sync::ledger::{Blank, Ledger};
use tuplex_run::{Outcome, Words, run_words, status};
use tx_base::{Meter, Steps};
use tx_place::{Files, MemoryConsole, MemoryPlace};
use tx_text::{Bytes, NoMemory, Numbers, PyText};

/// The script of the first example, on `in.csv`.
pub(crate) const SUMS: &[u8] =
    b"csv(\"in.csv\").withColumn(\"s\", lambda x: x[\"a\"] + x[\"b\"]).tocsv(\"out.csv\")\n";

/// What stands for a file that is not there.
pub(crate) const NONE: &[u8] = b"-";

/// How a command ended, and what it left.
#[derive(Drop)]
pub(crate) struct Ran {
    pub outcome: Outcome,
    pub place: MemoryPlace,
    pub console: MemoryConsole,
}

impl Ran {
    pub(crate) fn status(&self) -> u8 {
        status(&self.outcome)
    }

    /// The bytes of a file.
    pub(crate) fn file(&self, name: &str) -> &[u8] {
        match self.place.bytes_of(name) {
            Some(bytes) => bytes,
            None => NONE,
        }
    }

    pub(crate) fn output(&self) -> &[u8] {
        self.file("out.csv")
    }

    pub(crate) fn report(&self) -> &[u8] {
        self.file("out.csv.exceptions.csv")
    }
}

/// A call of the place and one of the console that are to fail (0 is none), and the greatest size of one read.
#[derive(Clone, Copy)]
pub(crate) struct Faults {
    pub place: u64,
    pub console: u64,
    pub most: usize,
}

pub(crate) const NO_FAULTS: Faults = Faults {
    place: 0,
    console: 0,
    most: 65_536,
};

fn counted<L: Ledger>(
    alloc: Global,
    words: &Words,
    place: &mut MemoryPlace,
    console: &mut MemoryConsole,
    blank: Blank,
) -> Outcome
    requires name { blank.name ≡ L.name }
    requires parts { blank.parts ≡ L.parts }
    requires some { 0 < L.parts }
{
    let mut meter = Meter::new();
    let mut steps = Steps::<L>::open(blank);
    run_words(alloc, words, place, console, &mut meter, &mut steps)
}

// What a word of a line stands for: `''` is the empty one.
fn meant(word: &str) -> &str {
    if word == "''" { "" } else { word }
}

/// The words of a line, with one blank between them.
fn words_of(alloc: Global, line: &str) -> Result<Words, NoMemory> {
    let mut words = Words::new(alloc);
    for word in line.split(' ') {
        if !word.is_empty() {
            words.push(PyText::from_str(alloc, meant(word))?)?;
        }
    }
    Ok(words)
}

/// A file of this name with these bytes.
pub(crate) fn file(alloc: Global, name: &str, text: &[u8]) -> Result<(PyText, Bytes), NoMemory> {
    let mut bytes = Bytes::new(alloc);
    bytes.push_all(text)?;
    Ok((PyText::from_str(alloc, name)?, bytes))
}

fn one(alloc: Global, number: u64) -> Result<Numbers, NoMemory> {
    let mut numbers = Numbers::new(alloc);
    numbers.push(number)?;
    Ok(numbers)
}

pub(crate) fn two_files(
    alloc: Global,
    script: (PyText, Bytes),
    input: (PyText, Bytes),
) -> Result<Files, NoMemory> {
    let mut files = Files::new(alloc);
    files.push(script)?;
    files.push(input)?;
    Ok(files)
}

/// Runs the words of a line over two files.
pub(crate) fn run_line(
    alloc: Global,
    line: &str,
    files: Files,
    faults: Faults,
) -> Result<Ran, NoMemory> {
    let words = words_of(alloc, line)?;
    let mut place = MemoryPlace::new(alloc, files, one(alloc, faults.place)?, faults.most.max(1))?;
    let mut console = MemoryConsole::new(alloc, one(alloc, faults.console)?)?;
    let outcome = counted::<Brand>(alloc, &words, &mut place, &mut console, Blank::new(1));
    Ok(Ran {
        outcome,
        place,
        console,
    })
}

/// Runs the sums on an input, and no call fails.
pub(crate) fn run_sums(alloc: Global, input: &[u8]) -> Result<Ran, NoMemory> {
    let script = file(alloc, "s.txs", SUMS)?;
    let input = file(alloc, "in.csv", input)?;
    run_line(
        alloc,
        "run s.txs",
        two_files(alloc, script, input)?,
        NO_FAULTS,
    )
}

// One run: the words, the cells of the file, and the line.
use crate::method::{Method, named};
use crate::timed::{Given, letter, round};
use std::alloc::{AllocError, Global};
use tx_place::{Console, Place, ReadError, read_all};
use tx_text::{NoMemory, PyText, Texts, Utf8Fault};

/// How many bytes the file may have.
const LIMIT: u64 = 1 << 30;

/// Why nothing was printed.
#[derive(Clone, Copy, Debug, PartialEq, Eq)]
pub(crate) enum Refusal {
    Words,
    File,
    NoMemory,
    Line,
}

impl From<NoMemory> for Refusal {
    fn from(_: NoMemory) -> Self {
        Refusal::NoMemory
    }
}

impl From<AllocError> for Refusal {
    fn from(_: AllocError) -> Self {
        Refusal::NoMemory
    }
}

impl From<ReadError> for Refusal {
    fn from(e: ReadError) -> Self {
        match e {
            ReadError::NoMemory => Refusal::NoMemory,
            ReadError::Fault | ReadError::TooLarge => Refusal::File,
        }
    }
}

impl From<Utf8Fault> for Refusal {
    fn from(e: Utf8Fault) -> Self {
        match e {
            Utf8Fault::NoMemory => Refusal::NoMemory,
            Utf8Fault::NotUtf8 => Refusal::File,
        }
    }
}

// The lines of a file, without their line feeds.
fn cells_of<P: Place>(alloc: Global, place: &mut P, name: &str) -> Result<Texts, Refusal> {
    let bytes = read_all(alloc, place, name, LIMIT)?;
    let text = PyText::from_utf8(alloc, bytes.as_slice())?;
    Ok(text.split_on(&letter(alloc, '\n')?)?)
}

// The sum over so many rounds.
fn sum_of(alloc: Global, method: Method, cells: &[PyText], rounds: u64) -> Result<u64, NoMemory> {
    let (comma, given) = (letter(alloc, ',')?, Given::new(alloc)?);
    let mut sum = 0u64;
    for _ in 0..rounds {
        sum = sum.wrapping_add(round(method, cells, &comma, &given)?);
    }
    Ok(sum)
}

/// Does what the words ask for, and says the line.
pub(crate) fn run<P: Place, C: Console>(
    alloc: Global,
    words: &[PyText],
    place: &mut P,
    console: &mut C,
) -> Result<(), Refusal> {
    let [word, file, rounds] = words else {
        return Err(Refusal::Words);
    };
    let Some(method) = named(word.as_str()) else {
        return Err(Refusal::Words);
    };
    let Ok(rounds) = rounds.as_str().parse::<u64>() else {
        return Err(Refusal::Words);
    };
    let cells = cells_of(alloc, place, file.as_str())?;
    let sum = sum_of(alloc, method, cells.as_slice(), rounds)?;
    let word = word.as_str();
    let line = format!(in alloc; "{word} {sum}\n")?;
    match console.say(line.as_bytes()) {
        Ok(()) => Ok(()),
        Err(_) => Err(Refusal::Line),
    }
}

// One run: the words, the file, its first block, the binding, and the line.
use crate::timed::{bind_often, first_block};
use std::alloc::{AllocError, Global};
use tx_place::{Console, Place, ReadError, read_all};
use tx_text::{NoMemory, PyText, Utf8Fault};
use tx_tokens::MOST_CHARACTERS;

/// How many bytes the file may have: as many as a script.
const LIMIT: u64 = 262_144;

/// Why nothing was printed.
#[derive(Clone, Copy, Debug, PartialEq, Eq)]
pub(crate) enum Refusal {
    Words,
    File,
    NoDef,
    NoMemory,
    Line,
}

impl From<NoMemory> for Refusal {
    fn from(_: NoMemory) -> Self {
        Refusal::NoMemory
    }
}

impl From<AllocError> for Refusal {
    fn from(_: AllocError) -> Self {
        Refusal::NoMemory
    }
}

impl From<Utf8Fault> for Refusal {
    fn from(e: Utf8Fault) -> Self {
        match e {
            Utf8Fault::NoMemory => Refusal::NoMemory,
            Utf8Fault::NotUtf8 => Refusal::File,
        }
    }
}

impl From<ReadError> for Refusal {
    fn from(e: ReadError) -> Self {
        match e {
            ReadError::NoMemory => Refusal::NoMemory,
            ReadError::Fault | ReadError::TooLarge => Refusal::File,
        }
    }
}

// The text of a file.
fn text_of<P: Place>(alloc: Global, place: &mut P, name: &str) -> Result<PyText, Refusal> {
    let bytes = read_all(alloc, place, name, LIMIT)?;
    Ok(PyText::from_utf8(alloc, bytes.as_slice())?)
}

/// Binds the def that the words name so often, and says the line.
pub(crate) fn run<P: Place, C: Console>(
    alloc: Global,
    words: &[PyText],
    place: &mut P,
    console: &mut C,
) -> Result<(), Refusal> {
    let [name, more] = words else {
        return Err(Refusal::Words);
    };
    let Ok(more) = more.as_str().parse::<u32>() else {
        return Err(Refusal::Words);
    };
    let text = text_of(alloc, place, name.as_str())?;
    if text.len() > MOST_CHARACTERS {
        return Err(Refusal::File);
    }
    let Some(block) = first_block(alloc, &text)? else {
        return Err(Refusal::NoDef);
    };
    let Some(slots) = bind_often(alloc, &block, more)? else {
        return Err(Refusal::NoDef);
    };
    let line = format!(in alloc; "{slots}\n")?;
    match console.say(line.as_bytes()) {
        Ok(()) => Ok(()),
        Err(_) => Err(Refusal::Line),
    }
}

// One run: the words, the file, the job, and the line.
use crate::job::{Job, named};
use crate::tally::{Tally, of_bytes, of_cells, of_source};
use crate::timed::{cells, rows_of, sources, written};
use std::alloc::{AllocError, Global};
use tx_place::{Console, Place, ReadError, read_all};
use tx_records::CellError;
use tx_text::{Bytes, NoMemory, PyText};

/// How many bytes the file may have: as many as an input of the product.
const LIMIT: u64 = 67_108_864;

/// Why nothing was printed.
#[derive(Clone, Copy, Debug, PartialEq, Eq)]
pub(crate) enum Refusal {
    Words,
    File,
    NoMemory,
    Line,
}

impl From<NoMemory> for Refusal {
    fn from(_: NoMemory) -> Self {
        Refusal::NoMemory
    }
}

impl From<AllocError> for Refusal {
    fn from(_: AllocError) -> Self {
        Refusal::NoMemory
    }
}

impl From<CellError> for Refusal {
    fn from(e: CellError) -> Self {
        match e {
            CellError::NoMemory => Refusal::NoMemory,
            // No row of a source has a container.
            CellError::NotScalar => Refusal::File,
        }
    }
}

impl From<ReadError> for Refusal {
    fn from(e: ReadError) -> Self {
        match e {
            ReadError::NoMemory => Refusal::NoMemory,
            ReadError::Fault | ReadError::TooLarge => Refusal::File,
        }
    }
}

// Does a job on a file, its own part once and so many times more.
fn done(alloc: Global, job: Job, file: &Bytes, more: u32) -> Result<Tally, Refusal> {
    match job {
        Job::Source => Ok(of_source(&sources(alloc, file, more)?)),
        Job::Cells => {
            let made = sources(alloc, file, 0)?;
            let count = cells(&made.rows, more)?;
            Ok(of_cells(&made.rows, count)?)
        }
        Job::Write => {
            let made = sources(alloc, file, 0)?;
            let rows = rows_of(alloc, &made.rows)?;
            Ok(of_bytes(&written(alloc, &made.names, &rows, more)?))
        }
    }
}

/// Does what the words ask for, and says the line.
pub(crate) fn run<P: Place, C: Console>(
    alloc: Global,
    words: &[PyText],
    place: &mut P,
    console: &mut C,
) -> Result<(), Refusal> {
    let [word, name, more] = words else {
        return Err(Refusal::Words);
    };
    let Some(job) = named(word.as_str()) else {
        return Err(Refusal::Words);
    };
    let Ok(more) = more.as_str().parse::<u32>() else {
        return Err(Refusal::Words);
    };
    let file = read_all(alloc, place, name.as_str(), LIMIT)?;
    let Tally { count, sum } = done(alloc, job, &file, more)?;
    let word = word.as_str();
    let line = format!(in alloc; "{word} {count} {sum}\n")?;
    match console.say(line.as_bytes()) {
        Ok(()) => Ok(()),
        Err(_) => Err(Refusal::Line),
    }
}

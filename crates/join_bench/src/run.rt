// One run: the words, the rows of the files, the job, and the line.
use crate::job::{Job, named};
use crate::reading::rows_of;
use crate::refusal::Refusal;
use crate::tally::{Tally, tallied};
use std::alloc::Global;
use tx_joins::{join, unique};
use tx_place::{Console, Place};
use tx_text::PyText;

/// The operators that the rows are read by.
const LEFT: u32 = 1;

const RIGHT: u32 = 2;

/// How many columns the right side has.
const WIDTH: usize = 2;

/// How often a job is done, and how many rows of its answer give one to the sum.
#[derive(Clone, Copy, Debug)]
struct Work {
    rounds: u32,
    stride: usize,
}

// The join of two files by their first columns, so many times over; where that is never, the left rows.
fn joins<P: Place>(
    alloc: Global,
    place: &mut P,
    left: &str,
    right: &str,
    work: Work,
) -> Result<Tally, Refusal> {
    let left = rows_of(alloc, place, left, LEFT)?;
    let right = rows_of(alloc, place, right, RIGHT)?;
    let mut told = tallied(&left, work.stride);
    for _round in 0..work.rounds {
        let answer = join(alloc, &left, &right, 0, 0, false, WIDTH)?;
        told = tallied(&answer.rows, work.stride);
    }
    Ok(told)
}

// The first of equal rows, so many times over; where that is never, the rows.
fn firsts<P: Place>(
    alloc: Global,
    place: &mut P,
    name: &str,
    work: Work,
) -> Result<Tally, Refusal> {
    let rows = rows_of(alloc, place, name, LEFT)?;
    let mut told = tallied(&rows, work.stride);
    for _round in 0..work.rounds {
        let answer = unique(alloc, &rows)?;
        told = tallied(&answer.rows, work.stride);
    }
    Ok(told)
}

// Does a job on the files that it takes.
fn done<P: Place>(
    alloc: Global,
    place: &mut P,
    job: Job,
    files: &[PyText],
    work: Work,
) -> Result<Tally, Refusal> {
    match job {
        Job::Join => {
            let [left, right] = files else {
                return Err(Refusal::Words);
            };
            joins(alloc, place, left.as_str(), right.as_str(), work)
        }
        Job::Unique => {
            let [name] = files else {
                return Err(Refusal::Words);
            };
            firsts(alloc, place, name.as_str(), work)
        }
    }
}

/// Does what the words ask for, and says the line.
pub(crate) fn run<P: Place, C: Console>(
    alloc: Global,
    words: &[PyText],
    place: &mut P,
    console: &mut C,
) -> Result<(), Refusal> {
    let [word, stride, rounds, files @ ..] = words else {
        return Err(Refusal::Words);
    };
    let Some(job) = named(word.as_str()) else {
        return Err(Refusal::Words);
    };
    let Ok(stride) = stride.as_str().parse::<usize>() else {
        return Err(Refusal::Words);
    };
    let Ok(rounds) = rounds.as_str().parse::<u32>() else {
        return Err(Refusal::Words);
    };
    let Tally { rows, sum } = done(alloc, place, job, files, Work { rounds, stride })?;
    let word = word.as_str();
    let line = format!(in alloc; "{word} {rows} {sum}\n")?;
    match console.say(line.as_bytes()) {
        Ok(()) => Ok(()),
        Err(_) => Err(Refusal::Line),
    }
}

// Command lines with what they ask for, and generated tables with their bytes.
mod lines;
mod tables;

use std::alloc::Global;
use tx_generate::rows;
use tx_text::{NoMemory, PyText, Texts};
use tx_words::{Command, command_of};

// What a word of a row stands for.
fn meant(word: &str) -> &str {
    if word == "''" { "" } else { word }
}

// The words of a row.
fn words_of(alloc: Global, text: &str) -> Result<Texts, NoMemory> {
    let mut words = Texts::new(alloc);
    for word in text.split(' ') {
        if !word.is_empty() {
            words.push(PyText::from_str(alloc, meant(word))?)?;
        }
    }
    Ok(words)
}

fn cell(row: &str, at: usize) -> &str {
    row.split(' ').nth(at).unwrap_or("")
}

fn number(row: &str, at: usize) -> Option<u64> {
    cell(row, at).parse::<u64>().ok()
}

fn is_text(text: &PyText, row: &str, at: usize) -> bool {
    text.as_str() == meant(cell(row, at))
}

// Whether a command is the one that is due.
fn is_due(command: &Command, due: &str) -> bool {
    match command {
        Command::Run {
            script,
            sample,
            order,
            stats,
        } => {
            cell(due, 0) == "run"
                && is_text(script, due, 1)
                && number(due, 2) == Some(u64::from(*sample))
                && number(due, 3) == *order
                && (cell(due, 4) == "stats") == *stats
        }
        Command::Check { script } => cell(due, 0) == "check" && is_text(script, due, 1),
        Command::Generate { seed, rows, file } => {
            cell(due, 0) == "generate"
                && number(due, 1) == Some(*seed)
                && number(due, 2) == Some(u64::from(*rows))
                && is_text(file, due, 3)
        }
    }
}

// Whether a row of words and an answer holds.
fn is_read(alloc: Global, row: &str) -> Result<bool, NoMemory> {
    let Some((words, due)) = row.split_once(" => ") else {
        return Ok(false);
    };
    let words = words_of(alloc, words)?;
    match command_of(alloc, &words)? {
        Some(command) => Ok(is_due(&command, due)),
        None => Ok(due == "nothing"),
    }
}

#[test]
fn command_lines_ask_for_what_they_say(rt: HostRuntime) {
    let mut count = 0usize;
    for row in lines::ROWS.lines() {
        assert!(rt; is_read(rt.alloc(), row) == Ok(true), "{row}");
        count = count.wrapping_add(1);
    }
    assert!(rt; count == lines::COUNT);
}

// Whether a table has these bytes: a line with the seed and the number of rows, and behind it the table.
fn is_table(alloc: Global, row: &str) -> bool {
    let Some((head, due)) = row.split_once('\n') else {
        return false;
    };
    let (Some(seed), Ok(count)) = (number(head, 0), cell(head, 1).parse::<u32>()) else {
        return false;
    };
    match rows(alloc, seed, count) {
        Ok(text) => text.as_slice() == due.as_bytes(),
        Err(NoMemory) => false,
    }
}

#[test]
fn small_tables_have_these_bytes(rt: HostRuntime) {
    let mut count = 0usize;
    for row in tables::TABLES.split("\n> ").skip(1) {
        assert!(rt; is_table(rt.alloc(), row), "{row}");
        count = count.wrapping_add(1);
    }
    assert!(rt; count == tables::COUNT);
}

// A sum that tells bytes and their order.
fn sum_of(bytes: &[u8]) -> u64 {
    let mut sum = 0u32;
    for byte in bytes {
        sum = sum.wrapping_mul(31).wrapping_add(u32::from(*byte));
    }
    u64::from(sum)
}

// Whether a table has so many bytes with this sum, by a row of the seed, the number of rows and the two.
fn is_summed(alloc: Global, row: &str) -> bool {
    let (Some(seed), Ok(count)) = (number(row, 0), cell(row, 1).parse::<u32>()) else {
        return false;
    };
    match rows(alloc, seed, count) {
        Ok(text) => {
            number(row, 2) == Some(text.len() as u64)
                && number(row, 3) == Some(sum_of(text.as_slice()))
        }
        Err(NoMemory) => false,
    }
}

#[test]
fn large_tables_have_these_sums(rt: HostRuntime) {
    let mut count = 0usize;
    for row in tables::SUMS.lines() {
        assert!(rt; is_summed(rt.alloc(), row), "{row}");
        count = count.wrapping_add(1);
    }
    assert!(rt; count == tables::SUMS_COUNT);
}

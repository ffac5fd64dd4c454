// Scripts and their trees in plain text.
mod keywords;
mod notation;
mod scripts;

ghost use Rattle.std.specs.Prelude.{◌<◌, ◌≤◌, length};

use keywords::{OUTSIDE, PLACES, USED};
use scripts::SCRIPTS;
use std::alloc::{AllocError, Global};
use std::fmt::Write;
use std::test::Fail;
use tx_parse::{BlockError, block, blocks};
use tx_text::{NoMemory, PyText};
use tx_tokens::{TokenList, tokens};
use tx_tree::{depth, spell_len, well_formed};

// How many characters a script may have.
const LONGEST: usize = 262_144;

// The trees or the faults of the blocks of some tokens, each with a bar behind it.
fn answers(alloc: Global, found: &TokenList, out: &mut String) -> Result<(), AllocError> {
    let Ok(spans) = blocks(alloc, found) else {
        return out.push_str("NoMemory");
    };
    for span in spans.as_slice() {
        if span.from < span.to && span.to <= found.len() {
            answer(alloc, found, span.from, span.to, out)?;
            out.push_str("|")?;
        }
    }
    Ok(())
}

fn answer(
    alloc: Global,
    found: &TokenList,
    from: usize,
    to: usize,
    out: &mut String,
) -> Result<(), AllocError>
    requires some { from < to }
    requires within { to ≤ length found.now }
{
    match block(alloc, found, from, to) {
        Ok(tree) => {
            if spell_len(&tree) != to - from || !well_formed(&tree) || depth(&tree) > 64 {
                out.push_str("no tree of these tokens")?;
            }
            notation::show_block(&tree, out)
        }
        Err(BlockError::Outside { line, word }) => {
            let word = word.as_str();
            write!(out, "Outside {line} {word}")
        }
        Err(BlockError::TooDeep { line }) => write!(out, "TooDeep {line}"),
        Err(BlockError::NotABlock { line }) => write!(out, "NotABlock {line}"),
        Err(BlockError::NoMemory) => out.push_str("NoMemory"),
    }
}

// A script whose line ends are written as bars, and a word as `#`.
fn script(alloc: Global, cell: &str, word: &str) -> Result<PyText, NoMemory> {
    let mut text = PyText::new(alloc);
    for c in cell.chars() {
        match c {
            '|' => text.push('\n')?,
            '#' => text.push_str(word)?,
            _ => text.push(c)?,
        }
    }
    Ok(text)
}

// Whether the blocks of a script are these.
fn is_answered(alloc: Global, cell: &str, word: &str, wanted: &str) -> Result<bool, AllocError> {
    let Ok(text) = script(alloc, cell, word) else {
        return Ok(false);
    };
    if text.len() > LONGEST {
        return Ok(false);
    }
    let Ok(found) = tokens(alloc, &text) else {
        return Ok(false);
    };
    let mut out = String::new(alloc);
    answers(alloc, &found, &mut out)?;
    Ok(out.as_str() == wanted)
}

fn holds(alloc: Global, row: &str) -> Result<bool, AllocError> {
    let mut cells = row.split(';');
    let cell = cells.next().unwrap_or("");
    is_answered(alloc, cell, "#", cells.next().unwrap_or(""))
}

#[test]
fn scripts_have_their_trees(rt: HostRuntime) -> Result<(), Fail> {
    let mut rows = 0usize;
    for row in SCRIPTS.lines() {
        assert!(rt; holds(rt.alloc(), row)?, "{row}");
        rows = rows.wrapping_add(1);
    }
    assert!(rt; rows == 446);
    Ok(())
}

// Whether a keyword is refused in a place for a name: as no block if the grammar has it, else as one outside the language.
fn is_refused(alloc: Global, place: &str, word: &str, used: bool) -> Result<bool, AllocError> {
    let mut cells = place.split(';');
    let cell = cells.next().unwrap_or("");
    if used {
        return is_answered(alloc, cell, word, "NotABlock 1|");
    }
    let line = cells.next().unwrap_or("");
    let mut wanted = String::new(alloc);
    write!(wanted, "Outside {line} {word}|")?;
    is_answered(alloc, cell, word, wanted.as_str())
}

// The first row of a place in which a keyword is not refused; the number of rows where it is refused in each.
fn first_taken(alloc: Global, word: &str, used: bool) -> Result<usize, AllocError> {
    let mut at = 0usize;
    for place in PLACES.lines() {
        if !is_refused(alloc, place, word, used)? {
            return Ok(at);
        }
        at = at.wrapping_add(1);
    }
    Ok(at)
}

#[test]
fn keywords_are_no_names(rt: HostRuntime) -> Result<(), Fail> {
    let mut rows = 0usize;
    for word in USED.lines() {
        let at = first_taken(rt.alloc(), word, true)?;
        assert!(rt; at == 25, "{word} in row {at}");
        rows = rows.wrapping_add(1);
    }
    assert!(rt; rows == 18);
    Ok(())
}

#[test]
fn keywords_outside_the_language_are_told(rt: HostRuntime) -> Result<(), Fail> {
    let mut rows = 0usize;
    for word in OUTSIDE.lines() {
        let at = first_taken(rt.alloc(), word, false)?;
        assert!(rt; at == 25, "{word} in row {at}");
        rows = rows.wrapping_add(1);
    }
    assert!(rt; rows == 17);
    Ok(())
}

// `csv("a").map(lambda x: 1 + 1 + ..)` with so many terms.
fn sum_of(alloc: Global, terms: usize) -> Result<PyText, NoMemory> {
    let mut text = PyText::from_str(alloc, "csv(\"a\").map(lambda x: 1")?;
    for _ in 1..terms {
        text.push_str("+1")?;
    }
    text.push_str(")\n")?;
    Ok(text)
}

// Whether the tokens of a text are read as one block, or answered as no block.
fn is_block(alloc: Global, text: &PyText) -> Option<bool> {
    if text.len() > LONGEST {
        return None;
    }
    let found = tokens(alloc, text).ok()?;
    if found.is_empty() {
        return None;
    }
    match block(alloc, &found, 0, found.len()) {
        Ok(_) => Some(true),
        Err(BlockError::NotABlock { line: 1 }) => Some(false),
        Err(_) => None,
    }
}

fn sum_is_block(alloc: Global, terms: usize) -> Option<bool> {
    let text = sum_of(alloc, terms).ok()?;
    is_block(alloc, &text)
}

#[test]
fn long_sums_are_answered(rt: HostRuntime) {
    assert!(rt; sum_is_block(rt.alloc(), 64) == Some(true));
    assert!(rt; sum_is_block(rt.alloc(), 65) == Some(false));
    assert!(rt; sum_is_block(rt.alloc(), 100_000) == Some(false));
}

// `def f(a0,a1,..):pass` with so many distinct parameters, and behind them the one of a number.
fn def_of(alloc: Global, params: usize, last: usize) -> Result<String, AllocError> {
    let mut text = String::new(alloc);
    text.push_str("def f(")?;
    for number in 0..params {
        write!(text, "a{number},")?;
    }
    write!(text, "a{last}):pass\n")?;
    Ok(text)
}

fn def_is_block(alloc: Global, params: usize, last: usize) -> Option<bool> {
    let written = def_of(alloc, params, last).ok()?;
    let text = PyText::from_str(alloc, written.as_str()).ok()?;
    is_block(alloc, &text)
}

#[test]
fn many_parameters_are_read(rt: HostRuntime) {
    assert!(rt; def_is_block(rt.alloc(), 19_999, 19_999) == Some(true));
}

#[test]
fn one_parameter_of_many_is_written_twice(rt: HostRuntime) {
    assert!(rt; def_is_block(rt.alloc(), 20_000, 19_999) == Some(false));
}

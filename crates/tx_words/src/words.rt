// What the words of a command line ask for, by the values that `clap` finds in them.
ghost use Rattle.std.specs.Prelude.{◌≡◌, IfOk, map, option_map, option_and_then, encode_utf8_all};
ghost use Rattle.clap.specs.Words.{first_of, found_of, rows_of, subcommand_rows_of};
ghost use Rattle.tx_words.specs.Words.{asked, check_in, command_of, generate_in, is_true_text, number_up_to, optional_number, run_in};
ghost use Rattle.tx_words.specs.CommandLine.{most_number};
ghost use Rattle.tx_words.specs.Laws.{Examples};

use crate::Command;
use crate::command_line::{MOST_ROWS, MOST_SAMPLE, tuplex_command};
use clap::ArgMatches;
use clap::error::ErrorKind;
use std::alloc::Global;
use tx_text::{NoMemory, PyText, Texts};

// The text of an argument, or its default.
fn text_in<'a>(matches: &ArgMatches<'a>, id: &str) -> Option<&'a str>
    ensures { option_map (λ s. s.now) result ≡ first_of id.now (rows_of (found_of matches.now)) }
{
    matches.get_str(id)
}

fn is_set(matches: &ArgMatches<'_>, id: &str) -> bool
    ensures { result ≡ is_true_text (first_of id.now (rows_of (found_of matches.now))) }
{
    match text_in(matches, id) {
        Some(text) => text == "true",
        None => false,
    }
}

// The number that a text is, if it is one of 32 bits up to `most`.
fn small_number(text: &str, most: u32) -> Option<u32>
    ensures { result ≡ number_up_to most text.now }
{
    let Ok(number) = text.parse::<u32>() else {
        return None;
    };
    if number <= most { Some(number) } else { None }
}

// The number that a text is, if it is one of 64 bits.
fn number(text: &str) -> Option<u64>
    ensures { result ≡ number_up_to most_number text.now }
{
    match text.parse::<u64>() {
        Ok(number) => Some(number),
        Err(_) => None,
    }
}

// The order's number, where there is one.
fn order_in(text: Option<&str>) -> Option<Option<u64>>
    ensures { result ≡ optional_number (option_map (λ s. s.now) text.entry) }
{
    match text {
        Some(text) => Some(Some(number(text)?)),
        None => Some(None),
    }
}

fn run_in(alloc: Global, matches: &ArgMatches<'_>) -> Result<Option<Command>, NoMemory>
    ensures { IfOk result (λ command. command ≡ run_in (rows_of (found_of matches.now))) }
{
    let Some(script) = text_in(matches, "script") else {
        return Ok(None);
    };
    let Some(sample) = text_in(matches, "sample") else {
        return Ok(None);
    };
    let Some(sample) = small_number(sample, MOST_SAMPLE) else {
        return Ok(None);
    };
    let Some(order) = order_in(text_in(matches, "order")) else {
        return Ok(None);
    };
    let stats = is_set(matches, "stats");
    let script = PyText::from_str(alloc, script)?;
    Ok(Some(Command::Run {
        script,
        sample,
        order,
        stats,
    }))
}

fn check_in(alloc: Global, matches: &ArgMatches<'_>) -> Result<Option<Command>, NoMemory>
    ensures { IfOk result (λ command. command ≡ check_in (rows_of (found_of matches.now))) }
{
    let Some(script) = text_in(matches, "script") else {
        return Ok(None);
    };
    let script = PyText::from_str(alloc, script)?;
    Ok(Some(Command::Check { script }))
}

fn generate_in(alloc: Global, matches: &ArgMatches<'_>) -> Result<Option<Command>, NoMemory>
    ensures { IfOk result (λ command. command ≡ generate_in (rows_of (found_of matches.now))) }
{
    let Some(seed) = text_in(matches, "seed") else {
        return Ok(None);
    };
    let Some(seed) = number(seed) else {
        return Ok(None);
    };
    let Some(rows) = text_in(matches, "rows") else {
        return Ok(None);
    };
    let Some(rows) = small_number(rows, MOST_ROWS) else {
        return Ok(None);
    };
    let Some(file) = text_in(matches, "file") else {
        return Ok(None);
    };
    let file = PyText::from_str(alloc, file)?;
    Ok(Some(Command::Generate { seed, rows, file }))
}

// The command of a subcommand with its values.
fn asked(alloc: Global, name: &str, matches: &ArgMatches<'_>) -> Result<Option<Command>, NoMemory>
    ensures { IfOk result (λ command. command ≡ asked (name.now, rows_of (found_of matches.now))) }
{
    if name == "run" {
        run_in(alloc, matches)
    } else if name == "check" {
        check_in(alloc, matches)
    } else if name == "generate" {
        generate_in(alloc, matches)
    } else {
        Ok(None)
    }
}

fn command_in(alloc: Global, matches: &ArgMatches<'_>) -> Result<Option<Command>, NoMemory>
    ensures { IfOk result (λ command. command ≡ option_and_then asked (subcommand_rows_of matches.now)) }
{
    match matches.subcommand() {
        Some((name, inner)) => asked(alloc, name, inner),
        None => Ok(None),
    }
}

// The words for `clap`.
fn texts_of<'a>(alloc: Global, words: &'a [PyText]) -> Result<Vec<&'a str>, NoMemory>
    ensures { IfOk result (λ texts. map (λ s. s.now) texts.items ≡ map encode_utf8_all words.now) }
{
    let mut texts = Vec::new(alloc);
    'words: for word in words {
        texts.push(word.as_str())?;
    }
    Ok(texts)
}

/// What the words after the program's own name ask for, or none where they are no command line.
pub fn command_of(alloc: Global, words: &Texts) -> Result<Option<Command>, NoMemory>
    ensures { IfOk result (λ command. command ≡ command_of words.now) }
{
    let texts = texts_of(alloc, words.as_slice())?;
    let command = tuplex_command(alloc)?;
    match command.try_get_matches_from(texts.as_slice()) {
        Ok(matches) => command_in(alloc, &matches),
        Err(error) => match error.kind() {
            ErrorKind::OutOfMemory => Err(NoMemory),
            _ => Ok(None),
        },
    }
}

/// The command lines that the definitions are tried on are read as they should be.
pub fn examples_hold()
    ensures { Examples }
{}

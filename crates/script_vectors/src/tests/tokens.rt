// Texts and their tokens. Where CPython has the same tokens they were taken from its `tokenize`; the others follow from the
// rules in `docs/LANGUAGE.md`.
mod rows;

use rows::ROWS;
use std::alloc::Global;
use std::test::Fail;
use tx_text::{NoMemory, PyText};
use tx_tokens::{MOST_CHARACTERS, TokenError, TokenKind, TokenList, tokens};

const COUNT: usize = 234;

// The character that a row means. A line feed, a carriage return, a tab and a byte order mark are written as others.
fn meant(c: char) -> char {
    match c {
        '↵' => '\n',
        '␍' => '\r',
        '⇥' => '\t',
        '⌂' => '\u{FEFF}',
        _ => c,
    }
}

// The character as a row writes it.
fn shown(c: char) -> char {
    match c {
        '\n' => '↵',
        '\r' => '␍',
        '\t' => '⇥',
        '\u{FEFF}' => '⌂',
        _ => c,
    }
}

// The text that a row means.
fn text_of(alloc: Global, written: &str) -> Result<PyText, NoMemory> {
    let mut text = PyText::new(alloc);
    for c in written.chars() {
        text.push(meant(c))?;
    }
    Ok(text)
}

// A text literal's value as a row writes it, in quotes.
fn show_value(out: &mut PyText, value: &PyText) -> Result<(), NoMemory> {
    out.push('\'')?;
    for c in value.as_str().chars() {
        out.push(shown(c))?;
    }
    out.push('\'')
}

// What a token is, as a row writes it.
fn show_kind(alloc: Global, out: &mut PyText, kind: &TokenKind) -> Result<(), NoMemory> {
    match kind {
        TokenKind::Name(name) => out.push_str(name.as_str()),
        TokenKind::Int(n) => out.push_str(format!(in alloc; "{n}")?.as_str()),
        TokenKind::Text(value) => show_value(out, value),
        TokenKind::Mark(mark) => out.push_str(mark.as_str()),
        TokenKind::Newline => out.push('¶'),
        TokenKind::Indent => out.push('→'),
        TokenKind::Dedent => out.push('←'),
    }
}

// The tokens as a row writes them: each with its places and its line.
fn show_tokens(alloc: Global, list: &TokenList) -> Result<PyText, NoMemory> {
    let mut out = PyText::new(alloc);
    for token in list.as_slice() {
        if out.len() > 0 {
            out.push(' ')?;
        }
        show_kind(alloc, &mut out, &token.kind)?;
        let span = format!(in alloc; ":{}-{}:{}", token.from, token.to, token.line)?;
        out.push_str(span.as_str())?;
    }
    Ok(out)
}

// The answer as a row writes it.
fn show(alloc: Global, answer: Result<TokenList, TokenError>) -> Result<PyText, NoMemory> {
    let (fault, line) = match answer {
        Ok(list) => return show_tokens(alloc, &list),
        Err(TokenError::BadToken { line }) => ("BadToken", line),
        Err(TokenError::BadIndent { line }) => ("BadIndent", line),
        Err(TokenError::WidthPast { line }) => ("WidthPast", line),
        Err(TokenError::NoMemory) => ("NoMemory", 0),
    };
    PyText::from_str(alloc, format!(in alloc; "{fault} {line}")?.as_str())
}

// Whether the text of a row has the tokens of the row.
fn holds(alloc: Global, row: &str) -> Result<bool, NoMemory> {
    let Some((written, wanted)) = row.split_once(" => ") else {
        return Ok(false);
    };
    let text = text_of(alloc, written)?;
    if text.len() > MOST_CHARACTERS {
        return Ok(false);
    }
    let got = show(alloc, tokens(alloc, &text))?;
    Ok(got.as_str() == wanted)
}

#[test]
fn texts_have_their_tokens(rt: HostRuntime) -> Result<(), Fail> {
    let alloc = rt.alloc();
    let mut ran: usize = 0;
    for row in ROWS.lines() {
        assert!(rt; holds(alloc, row)?, "{row}");
        ran = ran.saturating_add(1);
    }
    assert!(rt; ran == COUNT, "{ran} rows");
    Ok(())
}

// How many tokens a text has that is one part so many times, and then another as often; none where it has a fault.
fn count_of(
    alloc: Global,
    part: &str,
    other: &str,
    times: usize,
) -> Result<Option<usize>, NoMemory> {
    let mut text = PyText::new(alloc);
    for _turn in 0..times {
        text.push_str(part)?;
    }
    for _turn in 0..times {
        text.push_str(other)?;
    }
    if text.len() > MOST_CHARACTERS {
        return Ok(None);
    }
    match tokens(alloc, &text) {
        Ok(list) => Ok(Some(list.len())),
        Err(_) => Ok(None),
    }
}

// Texts of the greatest length: one name, one comment, empty lines, a line for each name, and 131,072 open brackets.
#[test]
fn long_texts_have_their_tokens(rt: HostRuntime) -> Result<(), Fail> {
    let alloc = rt.alloc();
    let half = MOST_CHARACTERS / 2;
    assert!(rt; count_of(alloc, "a", "b", half)? == Some(2), "a name");
    assert!(rt; count_of(alloc, "#", "'", half)? == Some(0), "a comment");
    assert!(rt; count_of(alloc, "\n", " ", half)? == Some(0), "empty lines");
    assert!(rt;
        count_of(alloc, "a\n", "b\n", half / 2)? == Some(2 * half),
        "names"
    );
    assert!(rt;
        count_of(alloc, "(", ")", half)? == Some(2 * half + 1),
        "brackets"
    );
    Ok(())
}

// Runs of blanks, and of letters, digits and underscores.
ghost use Rattle.std.specs.Prelude.{◌≡◌, length, drop, IfOk};
ghost use Rattle.std.specs.List.{prefix_len};
ghost use Rattle.std.specs.Str.{chars};
ghost use Rattle.tx_text.specs.Text.{is_ascii_digit};
ghost use Rattle.tx_tokens.specs.Pieces.{is_blank, is_letter, is_quote, is_word_char, run};

use crate::cursor::first_char;
use std::alloc::Global;
use tx_text::{NoMemory, PyText};

pub(crate) fn is_blank(c: char) -> bool
    ensures { result ≡ is_blank c }
{
    c == ' ' || c == '\t'
}

pub(crate) fn is_letter(c: char) -> bool
    ensures { result ≡ is_letter c }
{
    c.is_ascii_alphabetic() || c == '_'
}

pub(crate) fn is_digit(c: char) -> bool
    ensures { result ≡ is_ascii_digit c }
{
    c.is_ascii_digit()
}

pub(crate) fn is_quote(c: char) -> bool
    ensures { result ≡ is_quote c }
{
    c == '\'' || c == '"'
}

fn is_word_char(c: char) -> bool
    ensures { result ≡ is_word_char c }
{
    is_letter(c) || is_digit(c)
}

/// How many blanks stand in front, and what follows them.
pub(crate) fn blanks(text: &str) -> (usize, &str)
    ensures count { result.0 ≡ prefix_len is_blank (chars text.entry.now) }
    ensures rest { chars result.1.now ≡ drop result.0 (chars text.entry.now) }
{
    let mut size = 0;
    let mut rest = text;
    'blanks: while let Some((c, more)) = first_char(rest) {
        if !is_blank(c) {
            return (size, rest);
        }
        size += 1;
        rest = more;
    }
    (size, rest)
}

/// How many letters, digits and underscores stand in front. Each is one byte.
fn word_len(bytes: &[u8]) -> usize
    ensures { result ≡ prefix_len is_word_char bytes.now }
{
    let mut size = 0;
    for byte in bytes {
        if !is_word_char(char::from(*byte)) {
            return size;
        }
        size += 1;
    }
    size
}

/// The letters, digits and underscores in front, and what follows them.
pub(crate) fn word(alloc: Global, text: &str) -> Result<(PyText, &str), NoMemory>
    ensures word { IfOk result (λ p. p.0 ≡ run is_word_char (chars text.entry.now)) }
    ensures rest { IfOk result (λ p. chars p.1.now ≡ drop (prefix_len is_word_char (chars text.entry.now)) (chars text.entry.now)) }
{
    let (front, rest) = text.split_at(word_len(text.as_bytes()));
    Ok((PyText::from_str(alloc, front)?, rest))
}

// Operators and delimiters.
ghost use Rattle.std.specs.Prelude.{◌≡◌, ◌∷◌, ◌≤◌, ◌==◌, find, take, drop, length, IfOk};
ghost use Rattle.std.specs.Str.{chars};
ghost use Rattle.tx_text.specs.Text.{begins};
ghost use Rattle.tx_tokens.specs.Pieces.{mark_cut, marks};
ghost use Rattle.tx_tokens.specs.Calls.Walking.{IsCut, begins_with, delimiters, is_among, mark_size, operators, slash_size};

use crate::cursor::first_char;
use crate::piece::Piece;
use crate::token::TokenKind;
use std::alloc::Global;
use tx_text::{NoMemory, PyText};

fn begins_with(first: char, text: &str) -> bool
    ensures { result ≡ begins_with first (chars text.now) }
{
    match first_char(text) {
        None => false,
        Some((c, _)) => first == c,
    }
}

/// How many characters the mark has that two slashes begin, or 0 where there is one slash.
fn slash_size(text: &str) -> usize
    ensures { result ≡ slash_size (chars text.now) }
{
    match first_char(text) {
        Some(('/', rest)) => { if begins_with('=', rest) { 3 } else { 2 } }
        _ => 0,
    }
}

fn is_operator(c: char) -> bool
    ensures { result ≡ is_among operators c }
{
    matches!(c, '=' | '<' | '>' | '+' | '-' | '*' | '%')
}

fn is_delimiter(c: char) -> bool
    ensures { result ≡ is_among delimiters c }
{
    matches!(c, '(' | ')' | '[' | ']' | '{' | '}' | ',' | ':' | '.')
}

/// How many characters the longest mark has that a character and what follows it begin, or 0.
fn mark_size(first: char, behind: &str) -> usize
    ensures { result ≡ mark_size first (chars behind.now) }
{
    if first == '/' {
        return slash_size(behind);
    }
    let assigns = begins_with('=', behind);
    if first == '!' {
        return if assigns { 2 } else { 0 };
    }
    if is_operator(first) {
        return if assigns { 2 } else { 1 };
    }
    if is_delimiter(first) { 1 } else { 0 }
}

/// What follows so many characters.
fn behind_characters(count: usize, text: &str) -> &str
    ensures { chars result.now ≡ drop count (chars text.entry.now) }
{
    let mut rest = text;
    for _turn in 0..count {
        let Some((_c, more)) = first_char(rest) else {
            return rest;
        };
        rest = more;
    }
    rest
}

/// So many characters from the front, and what follows them.
fn characters(alloc: Global, count: usize, text: &str) -> Result<(PyText, &str), NoMemory>
    ensures front { IfOk result (λ p. p.0 ≡ take count (chars text.entry.now)) }
    ensures rest { IfOk result (λ p. chars p.1.now ≡ drop count (chars text.entry.now)) }
{
    let rest = behind_characters(count, text);
    let front = &text[..text.len() - rest.len()];
    Ok((PyText::from_str(alloc, front)?, rest))
}

/// The mark in front of a text that begins with a character, how many characters it has, and what follows it.
#[tactic(auto, using(crate::proofs::PieceLemmas::mark_none, crate::proofs::PieceLemmas::mark_some))]
pub(crate) fn mark_piece<'a>(
    alloc: Global,
    first: char,
    behind: &'a str,
    text: &'a str,
) -> Result<(Piece, usize, &'a str), NoMemory>
    requires { chars text.now ≡ first ∷ chars behind.now }
    ensures { IfOk result (λ p. IsCut (mark_cut (find (λ mark. begins mark (chars text.entry.now)) marks)) (chars text.entry.now) p.0 p.1 (chars p.2.now)) }
{
    let size = mark_size(first, behind);
    if size == 0 {
        return Ok((Piece::Bad, 1, behind));
    }
    let (mark, rest) = characters(alloc, size, text)?;
    Ok((Piece::Written(TokenKind::Mark(mark)), size, rest))
}

// Text literals.
ghost use Rattle.std.specs.Prelude.{◌≡◌, ◌≢◌, ◌==◌, ◌∷◌, ◌+◌, ◌≤◌, ◌<◌, ℕ, false, None, Some, IfOk, IfSome, length, drop};
ghost use Rattle.std.specs.Str.{NonePass, chars};
ghost use Rattle.tx_tokens.specs.Pieces.{backslash, escaped, in_front, quoted, text_cut};
ghost use Rattle.tx_tokens.specs.Calls.Walking.{IsCut};

use crate::cursor::{first_char, split_at_first};
use crate::piece::Piece;
use crate::token::TokenKind;
use std::alloc::Global;
use tx_text::{NoMemory, PyText};

/// What a backslash and a character stand for.
fn escaped(c: char) -> Option<char>
    ensures { result ≡ escaped c }
{
    match c {
        '\\' | '\'' | '"' => Some(c),
        'n' => Some('\n'),
        't' => Some('\t'),
        'r' => Some('\r'),
        _ => None,
    }
}

/// A character of a literal, other than its quote, by how many characters it is written, and what follows them.
fn item(first: char, behind: &str) -> Option<(char, usize, &str)>
    ensures none { result ≡ None → (quote : ℕ) → first ≢ quote → quoted quote (first ∷ chars behind.now) ≡ None }
    ensures some { IfSome result (λ p. (quote : ℕ) → first ≢ quote → quoted quote (first ∷ chars behind.now) ≡ in_front p.1 (Some p.0) (quoted quote (chars p.2.now))) }
    ensures rest { IfSome result (λ p. chars p.2.now ≡ drop p.1 (first ∷ chars behind.now)) }
    ensures size { IfSome result (λ p. p.1 + length p.2.now ≤ 1 + length behind.now) }
    ensures written { IfSome result (λ p. 0 < p.1) }
{
    if first != '\\' {
        return Some((first, 1, behind));
    }
    let (c, rest) = first_char(behind)?;
    let meant = escaped(c)?;
    Some((meant, 2, rest))
}

/// What stands behind an opening quote to the next such quote, character by character, by how many characters it is
/// written, that quote counted, and what follows it.
fn quoted_items<'a>(
    alloc: Global,
    quote: char,
    text: &'a str,
) -> Result<Option<(PyText, usize, &'a str)>, NoMemory>
    ensures none { IfOk result (λ o. o ≡ None → quoted quote (chars text.entry.now) ≡ None) }
    ensures some { IfOk result (λ o. IfSome o (λ p. quoted quote (chars text.entry.now) ≡ Some (p.0, p.1))) }
    ensures rest { IfOk result (λ o. IfSome o (λ p. chars p.2.now ≡ drop p.1 (chars text.entry.now))) }
    ensures size { IfOk result (λ o. IfSome o (λ p. p.1 ≤ length text.entry.now)) }
{
    let mut value = PyText::new(alloc);
    let mut size = 0;
    let mut rest = text;
    'items: while let Some((c, more)) = first_char(rest) {
        if c == quote {
            return Ok(Some((value, size + 1, more)));
        }
        let Some((meant, count, behind)) = item(c, more) else {
            return Ok(None);
        };
        value.push(meant)?;
        size += count;
        rest = behind;
    }
    Ok(None)
}

/// Whether a backslash may stand in a text: where the answer is no, there is none.
fn has_escape(text: &str) -> bool
    ensures { result ≡ false → NonePass (λ c. c == backslash) (chars text.now) }
{
    text.contains('\\')
}

/// The same, which is at once the part before the next such quote where no backslash stands in it.
fn quoted<'a>(
    alloc: Global,
    quote: char,
    text: &'a str,
) -> Result<Option<(PyText, usize, &'a str)>, NoMemory>
    requires { quote < 128 }
    ensures none { IfOk result (λ o. o ≡ None → quoted quote (chars text.entry.now) ≡ None) }
    ensures some { IfOk result (λ o. IfSome o (λ p. quoted quote (chars text.entry.now) ≡ Some (p.0, p.1))) }
    ensures rest { IfOk result (λ o. IfSome o (λ p. chars p.2.now ≡ drop p.1 (chars text.entry.now))) }
    ensures size { IfOk result (λ o. IfSome o (λ p. p.1 ≤ length text.entry.now)) }
{
    let Some((before, behind)) = split_at_first(text, quote) else {
        return Ok(None);
    };
    if has_escape(before) {
        return quoted_items(alloc, quote, text);
    }
    let value = PyText::from_str(alloc, before)?;
    let size = value.len() + 1;
    Ok(Some((value, size, behind)))
}

/// The text literal that a quote begins, how many characters it has, and what follows it.
#[tactic(auto, using(crate::proofs::PieceLemmas::text_none, crate::proofs::PieceLemmas::text_some))]
pub(crate) fn text_piece<'a>(
    alloc: Global,
    quote: char,
    behind: &'a str,
) -> Result<(Piece, usize, &'a str), NoMemory>
    requires { quote < 128 }
    ensures { IfOk result (λ p. IsCut (text_cut (quoted quote (chars behind.entry.now))) (quote ∷ chars behind.entry.now) p.0 p.1 (chars p.2.now)) }
{
    match quoted(alloc, quote, behind)? {
        None => Ok((Piece::Bad, 1, behind)),
        Some((value, size, rest)) => Ok((Piece::Written(TokenKind::Text(value)), 1 + size, rest)),
    }
}

// Brackets that are open.
ghost use Rattle.std.specs.Prelude.{◌≡◌, Some, None, Ok, true, false, IfSome, MatchOption, []};
ghost use Rattle.tx_tokens.specs.Layout.{closed_by, closer_of, first_line, is_closer, opened_behind, opened_by};

use crate::stack::Stack;
use crate::token::TokenKind;
use std::alloc::AllocError;

/// An open bracket.
#[derive(Clone, Copy, Debug)]
pub struct Open {
    /// The bracket that closes it.
    pub closer: char,
    /// The line on which it was opened.
    pub line: u32,
}

/// The bracket that closes an opening one.
fn closer_of(c: char) -> Option<char>
    ensures { result ≡ closer_of c }
{
    match c {
        '(' => Some(')'),
        '[' => Some(']'),
        '{' => Some('}'),
        _ => None,
    }
}

fn is_closer(c: char) -> bool
    ensures { result ≡ is_closer c }
{
    matches!(c, ')' | ']' | '}')
}

/// Closes the bracket that was opened last; false where another one closes it, or none is open.
fn close(opened: &mut Stack<Open>, closer: char) -> bool
    ensures closed { result ≡ true → closed_by closer opened.old ≡ Some opened.new }
    ensures not_open { result ≡ false → closed_by closer opened.old ≡ None }
{
    match opened.pop() {
        None => false,
        Some(open) => open.closer == closer,
    }
}

/// Opens or closes a bracket where the character is one; false where it closes what is not open.
fn nest(opened: &mut Stack<Open>, c: char, line: u32) -> Result<bool, AllocError>
    ensures fits { result ≡ Ok true → opened_by (closer_of c) c line opened.old ≡ Some opened.new }
    ensures not_open { result ≡ Ok false → opened_by (closer_of c) c line opened.old ≡ None }
{
    if let Some(closer) = closer_of(c) {
        opened.push(Open { closer, line })?;
        return Ok(true);
    }
    if is_closer(c) {
        return Ok(close(opened, c));
    }
    Ok(true)
}

/// Opens or closes a bracket where the token is one; false where it closes what is not open.
pub(crate) fn nest_token(
    opened: &mut Stack<Open>,
    kind: &TokenKind,
    line: u32,
) -> Result<bool, AllocError>
    ensures fits { result ≡ Ok true → opened_behind line opened.old kind.now ≡ Some opened.new }
    ensures not_open { result ≡ Ok false → opened_behind line opened.old kind.now ≡ None }
{
    let TokenKind::Mark(mark) = kind else {
        return Ok(true);
    };
    if mark.len() != 1 {
        return Ok(true);
    }
    match mark.char_at(0) {
        None => Ok(true),
        Some(c) => nest(opened, c, line),
    }
}

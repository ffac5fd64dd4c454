// Integers.
ghost use Rattle.std.specs.Prelude.{◌≡◌, ◌≤◌, ◌<◌, ◌+◌, ◌*◌, ◌-◌, ◌^◌, ◌⊎◌, true};
ghost use Rattle.std.specs.Str.{chars};
ghost use Rattle.tx_text.specs.Text.{is_ascii_digit};
ghost use Rattle.tx_tokens.specs.Pieces.{are_grouped, is_digit_to, is_integer, integer_piece, starts_with_dot, value_of};
ghost use Rattle.tx_tokens.specs.Calls.Walking.{capped};

use crate::cursor::first_char;
use crate::piece::Piece;
use crate::token::TokenKind;
use crate::word::is_digit;

// The least number that is past 128 bits: 2^127.
const PAST: u128 = 0x8000_0000_0000_0000_0000_0000_0000_0000;

fn is_digit_to(last: char, c: char) -> bool
    ensures { result ≡ is_digit_to last c }
{
    '0' <= c && c <= last
}

/// Whether digits up to one follow, with single underscores before them.
fn are_grouped(last: char, text: &str) -> bool
    requires { last ≡ 48 ⊎ last ≡ 57 }
    ensures { result ≡ are_grouped last (chars text.now) }
{
    let mut after_underscore = false;
    let mut rest = text;
    'digits: while let Some((c, more)) = first_char(rest) {
        if is_digit_to(last, c) {
            after_underscore = false;
        } else if c == '_' && !after_underscore {
            after_underscore = true;
        } else {
            return false;
        }
        rest = more;
    }
    !after_underscore
}

/// Whether digits, letters and underscores are an integer.
fn is_integer(text: &str) -> bool
    ensures { result ≡ is_integer (chars text.now) }
{
    match first_char(text) {
        None => false,
        Some(('0', rest)) => are_grouped('0', rest),
        Some((c, rest)) => is_digit(c) && are_grouped('9', rest),
    }
}

/// A number with one digit more, which stays at 2^127 from there on.
fn longer(number: u128, digit: char) -> u128
    requires capped { number ≤ 2 ^ 127 }
    requires digit { is_ascii_digit digit ≡ true }
    ensures { result ≡ capped (number * 10 + (digit - 48)) }
{
    if number > (PAST - 1) / 10 {
        return PAST;
    }
    let more = number * 10 + (digit as u128 - '0' as u128);
    more.min(PAST)
}

/// The number that digits and underscores write, or 2^127 where it is greater.
fn number(text: &str) -> u128
    ensures { result ≡ capped (value_of (chars text.now)) }
{
    let mut number = 0;
    let mut rest = text;
    'digits: while let Some((c, more)) = first_char(rest) {
        if is_digit(c) {
            number = longer(number, c);
        }
        rest = more;
    }
    number
}

fn starts_with_dot(text: &str) -> bool
    ensures { result ≡ starts_with_dot (chars text.now) }
{
    match first_char(text) {
        None => false,
        Some((c, _)) => c == '.',
    }
}

/// What digits, letters and underscores are that begin with a digit.
pub(crate) fn integer_piece(digits: &str, behind: &str) -> Piece
    ensures { result ≡ integer_piece (chars digits.now) (chars behind.now) }
{
    if !is_integer(digits) || starts_with_dot(behind) {
        return Piece::Bad;
    }
    let number = number(digits);
    if number < PAST {
        return Piece::Written(TokenKind::Int(number as i128));
    }
    Piece::TooWide
}

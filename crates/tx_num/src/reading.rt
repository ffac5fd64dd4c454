// How far the reading of an integer has come. Each call goes on by one character, and its contract says that the rest
// of the text then gives what the character and the rest gave before.
ghost use Rattle.std.specs.Prelude.{◌≡◌, ◌∷◌, [], Bool, List, ℕ, true};
ghost use Rattle.tx_text.specs.Text.{is_ascii_digit, is_blank, without_back};
ghost use Rattle.tx_num.specs.Calls.Reading.{longer_read, number_read, rest_read};

use crate::IntRead;
use tx_text::is_blank;

/// What the front of a text was read as.
#[derive(Clone, Copy)]
pub(crate) enum Reading {
    /// Whitespace, or nothing.
    Blank,
    /// A sign, digits and underscores: the number so far, or none once it is past 128 bits, and whether a digit stands
    /// last.
    Number {
        negative: bool,
        size: Option<u128>,
        after_digit: bool,
    },
    /// All but whitespace: the answer, unless something else follows.
    Done(IntRead),
}

// The size of the least number. A size above it is past 128 bits with either sign.
const MOST: u128 = 0x8000_0000_0000_0000_0000_0000_0000_0000;

// A size with one digit more, or none where it is past 128 bits. Digits that follow only make it larger, so it stays
// none.
#[tactic(auto, using(crate::proofs::ByCharacter::past_longer))]
fn with_digit(size: Option<u128>, digit: char) -> Option<u128>
    requires { is_ascii_digit digit ≡ true }
    ensures { (negative : Bool) (digits : List ℕ) → longer_read negative result digits ≡ longer_read negative size (digit ∷ digits) }
{
    let n = size?;
    if n > MOST / 10 {
        return None;
    }
    Some(n * 10 + (digit as u128 - '0' as u128))
}

// The number of a size with a sign.
fn signed(negative: bool, size: Option<u128>) -> IntRead
    ensures { result ≡ longer_read negative size [] }
{
    match size {
        Some(n) if n < MOST && negative => IntRead::Value(-(n as i128)),
        Some(n) if n < MOST => IntRead::Value(n as i128),
        Some(MOST) if negative => IntRead::Value(i128::MIN),
        _ => IntRead::Past,
    }
}

// A character behind a sign, digits and underscores.
#[tactic(auto, using(crate::proofs::ByCharacter::behind_a_number))]
fn behind_number(negative: bool, size: Option<u128>, after_digit: bool, c: char) -> Reading
    ensures { (rest : List ℕ) → rest_read result rest ≡ number_read negative size after_digit (without_back is_blank (c ∷ rest)) }
{
    if c.is_ascii_digit() {
        return Reading::Number {
            negative,
            size: with_digit(size, c),
            after_digit: true,
        };
    }
    if !after_digit {
        return Reading::Done(IntRead::NotInt);
    }
    if c == '_' {
        return Reading::Number {
            negative,
            size,
            after_digit: false,
        };
    }
    if is_blank(c) {
        return Reading::Done(signed(negative, size));
    }
    Reading::Done(IntRead::NotInt)
}

// A character behind whitespace.
#[tactic(auto, using(crate::proofs::ByCharacter::behind_whitespace))]
fn behind_whitespace(c: char) -> Reading
    ensures { (rest : List ℕ) → rest_read result rest ≡ rest_read Reading.Blank (c ∷ rest) }
{
    if is_blank(c) {
        return Reading::Blank;
    }
    if c == '-' {
        return Reading::Number {
            negative: true,
            size: Some(0),
            after_digit: false,
        };
    }
    if c == '+' {
        return Reading::Number {
            negative: false,
            size: Some(0),
            after_digit: false,
        };
    }
    behind_number(false, Some(0), false, c)
}

/// What is read with one character more.
pub(crate) fn read_on(reading: Reading, c: char) -> Reading
    ensures { (rest : List ℕ) → rest_read result rest ≡ rest_read reading (c ∷ rest) }
{
    match reading {
        Reading::Blank => behind_whitespace(c),
        Reading::Number {
            negative,
            size,
            after_digit,
        } => behind_number(negative, size, after_digit, c),
        Reading::Done(_) if is_blank(c) => reading,
        Reading::Done(_) => Reading::Done(IntRead::NotInt),
    }
}

/// The answer at the end of the text.
pub(crate) fn answer(reading: Reading) -> IntRead
    ensures { result ≡ rest_read reading [] }
{
    match reading {
        Reading::Number {
            negative,
            size,
            after_digit: true,
        } => signed(negative, size),
        Reading::Done(answer) => answer,
        _ => IntRead::NotInt,
    }
}

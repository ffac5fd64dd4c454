// Integers read from texts.
ghost use Rattle.std.specs.Prelude.{◌≡◌};
ghost use Rattle.std.specs.Str.{chars};
ghost use Rattle.ucd_category.specs.GeneralCategory.{general_category};
ghost use Rattle.tx_num.specs.ReadInt.{is_decimal_number, is_outside, read_int};

use crate::reading::{Reading, answer, read_on};
use tx_text::{PyText, first_char};
use ucd_category::GeneralCategory;

/// What a text gives as an integer.
#[derive(Clone, Copy, Debug, PartialEq, Eq)]
pub enum IntRead {
    /// The integer that the text writes.
    Value(i128),
    /// The text writes no integer: Python's ValueError.
    NotInt,
    /// The text writes an integer of more than 128 bits.
    Past,
    /// The text has a character on which Python's answer is left out of this project's profile: one from U+001C to
    /// U+001F, or a decimal digit past ASCII.
    OutOfProfile,
}

/// The integer that a text writes, as Python's `int`: whitespace at the ends, an optional sign, and digits with single
/// underscores between them. `" +1_000 "` gives 1000, and `"1.5"` is no integer. It takes no memory. A plain integer of 64
/// bits is read in one go over the text, and any other text in one go more.
pub fn read_int(t: &PyText) -> IntRead
    ensures { result ≡ read_int t.now }
{
    let text = t.as_str();
    // Most integers are plain and have 64 bits, and std reads those faster.
    match text.parse::<i64>() {
        Ok(n) => IntRead::Value(n as i128),
        Err(_) => read_text(text),
    }
}

// Whether a character is a decimal digit of some script.
fn is_decimal(c: char) -> bool
    ensures { result ≡ is_decimal_number (general_category c) }
{
    matches!(GeneralCategory::for_char(c), GeneralCategory::DecimalNumber)
}

// Whether a character is outside of the profile. One of ASCII is not looked up.
fn is_outside(c: char) -> bool
    ensures { result ≡ is_outside c }
{
    matches!(c, '\u{1C}'..='\u{1F}') || (!c.is_ascii() && is_decimal(c))
}

// The integer that a text writes, character by character.
fn read_text(text: &str) -> IntRead
    ensures { result ≡ read_int (chars text.now) }
{
    let mut reading = Reading::Blank;
    let mut rest = text;
    'characters: while let Some((c, more)) = first_char(rest) {
        if is_outside(c) {
            return IntRead::OutOfProfile;
        }
        reading = read_on(reading, c);
        rest = more;
    }
    answer(reading)
}

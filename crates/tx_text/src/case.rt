// Small letters, capitals and digits.
ghost use Rattle.std.specs.Prelude.{◌≡◌, ◌∷◌, ◌++◌, ◌&&◌, [], not, IfOk, OnOk, IsAscii};
ghost use Rattle.std.specs.List.{list_all, list_any, flat_map};
ghost use Rattle.std.specs.Str.{chars};
ghost use Rattle.tx_text.specs.Text.{is_ascii, is_ascii_digit, is_latin, lower_char, upper_char, lower_of, upper_of, digits_of};

use crate::draft::Draft;
use crate::{NoMemory, PyText};
use std::alloc::Global;

impl PyText {
    /// The text in small letters, as `str.lower` has it: `"É"` gives `"é"`. None where a character is above U+00FF.
    pub fn lower(&self) -> Result<Option<PyText>, NoMemory>
        ensures { IfOk result (λ o. o ≡ lower_of self.now) }
    {
        if self.as_str().is_ascii() {
            return Ok(Some(small_ascii(self.allocator(), self.as_str())?));
        }
        if !is_latin(self.as_str()) {
            return Ok(None);
        }
        Ok(Some(in_small_letters(self.allocator(), self.as_str())?))
    }

    /// The text in capitals, as `str.upper` has it: `"straße"` gives `"STRASSE"`. None where a character is above
    /// U+00FF.
    pub fn upper(&self) -> Result<Option<PyText>, NoMemory>
        ensures { IfOk result (λ o. o ≡ upper_of self.now) }
    {
        if self.as_str().is_ascii() {
            return Ok(Some(capital_ascii(self.allocator(), self.as_str())?));
        }
        if !is_latin(self.as_str()) {
            return Ok(None);
        }
        Ok(Some(in_capitals(self.allocator(), self.as_str())?))
    }

    /// Whether all characters are digits, and there is one, as `str.isdigit` says: `"12"` is, `""` and `"1a"` are not.
    /// None where characters past ASCII decide.
    pub fn is_digit(&self) -> Option<bool>
        ensures { result ≡ digits_of self.now }
    {
        all_digits(self.as_str())
    }
}

// Whether all characters are up to U+00FF.
fn is_latin(text: &str) -> bool
    ensures { result ≡ list_all is_latin (chars text.now) }
{
    text.chars().all(|c| c <= '\u{FF}')
}

// The small letter of a capital up to U+00FF.
fn small_letter(c: char) -> char
    ensures { result ≡ lower_char c }
{
    match c {
        'A'..='Z' | 'À'..='Ö' | 'Ø'..='Þ' => (c as u8 + 32) as char,
        _ => c,
    }
}

// A text of ASCII in small letters, which are changed in place.
fn small_ascii(alloc: Global, text: &str) -> Result<PyText, NoMemory>
    requires { IsAscii text.now }
    ensures { IfOk result (λ t. t ≡ flat_map (λ c. lower_char c ∷ []) (chars text.now)) }
{
    let mut made = String::from_str(alloc, text)?;
    made.make_ascii_lowercase();
    Ok(PyText::of_string(made))
}

// A text of ASCII in capitals.
fn capital_ascii(alloc: Global, text: &str) -> Result<PyText, NoMemory>
    requires { IsAscii text.now }
    ensures { IfOk result (λ t. t ≡ flat_map upper_char (chars text.now)) }
{
    let mut made = String::from_str(alloc, text)?;
    made.make_ascii_uppercase();
    Ok(PyText::of_string(made))
}

// The text in small letters.
fn in_small_letters(alloc: Global, text: &str) -> Result<PyText, NoMemory>
    ensures { IfOk result (λ t. t ≡ flat_map (λ c. lower_char c ∷ []) (chars text.now)) }
{
    let mut made = Draft::with_room(alloc, text.len())?;
    for c in text.chars() {
        made.push(small_letter(c))?;
    }
    Ok(made.done())
}

// Adds a character's capitals at the end.
fn push_capitals(text: &mut Draft, c: char) -> Result<(), NoMemory>
    ensures { OnOk result (text.new ≡ text.old ++ upper_char c) }
{
    match c {
        'a'..='z' | 'à'..='ö' | 'ø'..='þ' => text.push((c as u8 - 32) as char),
        'ß' => text.push_str("SS"),
        'ÿ' => text.push('Ÿ'),
        '\u{B5}' => text.push('\u{39C}'),
        _ => text.push(c),
    }
}

// The text in capitals.
fn in_capitals(alloc: Global, text: &str) -> Result<PyText, NoMemory>
    ensures { IfOk result (λ t. t ≡ flat_map upper_char (chars text.now)) }
{
    let mut made = Draft::with_room(alloc, text.len())?;
    for c in text.chars() {
        push_capitals(&mut made, c)?;
    }
    Ok(made.done())
}

// Whether some character is of ASCII and no digit.
fn has_other(text: &str) -> bool
    ensures { result ≡ list_any (λ d. is_ascii d && not (is_ascii_digit d)) (chars text.now) }
{
    text.chars().any(|c| c.is_ascii() && !c.is_ascii_digit())
}

// Whether all characters are digits of ASCII.
fn has_digits_only(text: &str) -> bool
    ensures { result ≡ list_all is_ascii_digit (chars text.now) }
{
    text.chars().all(|c| c.is_ascii_digit())
}

// Whether all characters are digits, and there is one.
fn all_digits(text: &str) -> Option<bool>
    ensures { result ≡ digits_of (chars text.now) }
{
    if text.is_empty() || has_other(text) {
        Some(false)
    } else if has_digits_only(text) {
        Some(true)
    } else {
        None
    }
}

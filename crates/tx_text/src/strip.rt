// Characters taken off the ends of a text.
ghost use Rattle.std.specs.Prelude.{◌≡◌, ◌∷◌, ◌++◌, ◌<◌, ◌==◌, [], length, MatchOption, IfSome, IfOk, option_map, option_copied};
ghost use Rattle.std.specs.List.{list_any};
ghost use Rattle.std.specs.Str.{chars};
ghost use Rattle.tx_text.specs.Text.{is_blank, is_taken, without_front, without_back, stripped};
ghost use Rattle.tx_text.specs.Laws.{StripLaw};

use crate::points::first_char;
use crate::{NoMemory, PyText};

/// The ends that `strip` takes characters off.
#[derive(Clone, Copy, Debug, PartialEq, Eq)]
pub enum Side {
    Both,
    Left,
    Right,
}

impl PyText {
    /// The text without whitespace at its ends, or without the characters of another text: `str.strip`, `str.lstrip`
    /// and `str.rstrip`. `"a-a"` without those of `"a"` is `"-"`.
    pub fn strip(&self, side: Side, of: Option<&PyText>) -> Result<PyText, NoMemory>
        ensures { IfOk result (λ t. t ≡ stripped side (is_taken (option_copied of.entry)) self.now) }
    {
        let those = of.map(|text| text.as_str());
        PyText::from_str(self.allocator(), trimmed(self.as_str(), side, those))
    }
}

/// What `strip` leaves of a text has no such character at an end that it takes from, what it took were such characters,
/// and at the other end it took nothing.
pub fn stripped_ends_are_clean()
    ensures { StripLaw }
{}

/// Whether a character is whitespace, as `str.isspace` says: Unicode's, and the four separators of ASCII.
pub fn is_blank(c: char) -> bool
    ensures { result ≡ is_blank c }
{
    c.is_whitespace() || matches!(c, '\u{1C}'..='\u{1F}')
}

// Whether a character is one of a text's.
fn is_one_of(those: &str, c: char) -> bool
    ensures { result ≡ list_any (λ d. d == c) (chars those.now) }
{
    those.contains(c)
}

// Whether a character is taken off.
fn is_taken(of: Option<&str>, c: char) -> bool
    ensures { result ≡ is_taken (option_map (λ t. chars t.now) of.entry) c }
{
    match of {
        None => is_blank(c),
        Some(those) => is_one_of(those, c),
    }
}

// The text without such characters at these ends.
fn trimmed<'a>(text: &'a str, side: Side, of: Option<&str>) -> &'a str
    ensures { chars result.now ≡ stripped side (is_taken (option_map (λ t. chars t.now) of.entry)) (chars text.now) }
{
    match side {
        Side::Both => back_trimmed(front_trimmed(text, of), of),
        Side::Left => front_trimmed(text, of),
        Side::Right => back_trimmed(text, of),
    }
}

// The last character of a text, and what stands before it.
fn last_of(text: &str) -> Option<(&str, char)>
    ensures value { MatchOption result (chars text.now ≡ []) (λ p. chars text.now ≡ chars p.0.now ++ p.1 ∷ []) }
    ensures shorter { IfSome result (λ p. length p.0.now < length text.now) }
{
    let mut rest = text.chars();
    match rest.next_back() {
        None => None,
        Some(c) => Some((rest.as_str(), c)),
    }
}

// The text behind the characters that are taken off its front.
fn front_trimmed<'a>(text: &'a str, of: Option<&str>) -> &'a str
    ensures { chars result.now ≡ without_front (is_taken (option_map (λ t. chars t.now) of.entry)) (chars text.now) }
{
    let mut rest = text;
    'front: while let Some((c, more)) = first_char(rest) {
        if !is_taken(of, c) {
            return rest;
        }
        rest = more;
    }
    rest
}

// The text before the characters that are taken off its back.
fn back_trimmed<'a>(text: &'a str, of: Option<&str>) -> &'a str
    ensures { chars result.now ≡ without_back (is_taken (option_map (λ t. chars t.now) of.entry)) (chars text.now) }
{
    let mut rest = text;
    'back: while let Some((before, c)) = last_of(rest) {
        if !is_taken(of, c) {
            return rest;
        }
        rest = before;
    }
    rest
}

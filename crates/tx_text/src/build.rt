// Texts made of other texts. Each call is given how many characters its result may have, and a longer one is not begun.
ghost use Rattle.std.specs.Prelude.{◌≡◌, ◌≢◌, ℕ, ◌+◌, ◌*◌, ◌≤◌, [], ◌∷◌, ◌++◌, length, replicate, IfOk, OnOk, IfSome, IsTrue, ◌↔◌};
ghost use Rattle.std.specs.Str.{chars};
ghost use Rattle.tx_text.specs.Text.{between, filled, is_sign, joined, pieces, repeated, replaced, zeros_behind};
ghost use Rattle.tx_text.specs.Limits.{UpTo};
ghost use Rattle.tx_text.specs.Laws.{ReplaceLaw, ZerosLaw};

use crate::draft::Draft;
use crate::points::{first_char, text_between};
use crate::search::{first_split, occurrences};
use crate::{Long, NoMemory, PyText, Texts};
use std::alloc::Global;

// Whether the sum of two lengths is within a limit.
fn sum_fits(a: usize, b: usize, most: usize) -> bool
    ensures { IsTrue result ↔ (a + b ≤ most) }
{
    a <= most && b <= most - a
}

// How long a text will be: so many times as many characters as another has, and some besides.
#[derive(Clone, Copy)]
struct Planned {
    times: usize,
    each: usize,
    besides: usize,
}

impl Planned {
    fn is_within(self, most: usize) -> bool
        ensures { IsTrue result ↔ (self.times * self.each + self.besides ≤ most) }
    {
        match self.times.checked_mul(self.each) {
            Some(all) => sum_fits(all, self.besides, most),
            None => false,
        }
    }
}

// Whether the texts with the separator between them are within a limit.
fn joined_fits(sep: &PyText, parts: &[PyText], most: usize) -> bool
    ensures { IsTrue result ↔ (length (joined sep.now parts.now) ≤ most) }
{
    let [first, more @ ..] = parts else {
        return true;
    };
    let gap = sep.len();
    let mut total = first.len();
    if total > most {
        return false;
    }
    'parts: for part in more {
        let len = part.len();
        if !sum_fits(gap, len, most - total) {
            return false;
        }
        total += gap + len;
    }
    true
}

// Whether a text with another in place of each occurrence of a part is within a limit. Where as many occurrences as
// there is room for would fit, they are not counted.
fn replaced_fits(text: &PyText, old: &PyText, new: &PyText, most: usize) -> bool
    requires { old.now ≢ [] }
    ensures { IsTrue result ↔ (length (replaced old.now new.now text.now) ≤ most) }
{
    let (len, part, each) = (text.len(), old.len(), new.len());
    let times = len / part;
    let at_most = Planned {
        times,
        each,
        besides: len,
    };
    if at_most.is_within(most) {
        return true;
    }
    let times = occurrences(text.as_str(), old.as_str());
    let besides = len - times * part;
    Planned {
        times,
        each,
        besides,
    }
    .is_within(most)
}

// One text, then another.
fn pair_of(alloc: Global, a: &str, b: &str) -> Result<PyText, NoMemory>
    ensures { IfOk result (λ t. t ≡ chars a.now ++ chars b.now) }
{
    let mut made = Draft::with_room(alloc, a.len().saturating_add(b.len()))?;
    made.push_str(a)?;
    made.push_str(b)?;
    Ok(made.done())
}

// Adds a text so many times at the end.
fn push_copies(made: &mut Draft, text: &str, times: usize) -> Result<(), NoMemory>
    ensures { OnOk result (made.new ≡ made.old ++ repeated times (chars text.now)) }
{
    'copies: for _ in 0..times {
        made.push_str(text)?;
    }
    Ok(())
}

// A text so many times. The empty one is not added at all, however often.
fn copies_of(alloc: Global, text: &str, times: usize) -> Result<PyText, NoMemory>
    ensures { IfOk result (λ t. t ≡ repeated times (chars text.now)) }
{
    if text.is_empty() {
        return Ok(PyText::new(alloc));
    }
    let mut made = Draft::with_room(alloc, text.len().saturating_mul(times))?;
    push_copies(&mut made, text, times)?;
    Ok(made.done())
}

// How many bytes the texts and a separator for each have, for the room that is taken.
fn room_of(sep: &str, parts: &[PyText]) -> usize {
    let mut room = 0usize;
    for part in parts {
        room = room
            .saturating_add(sep.len())
            .saturating_add(part.as_str().len());
    }
    room
}

// The texts with a separator between them.
fn joined_with(alloc: Global, sep: &str, parts: &[PyText]) -> Result<PyText, NoMemory>
    ensures { IfOk result (λ t. t ≡ joined (chars sep.now) parts.now) }
{
    let [first, more @ ..] = parts else {
        return Ok(PyText::new(alloc));
    };
    let mut made = Draft::with_room(alloc, room_of(sep, parts))?;
    made.push_str(first.as_str())?;
    'parts: for part in more {
        made.push_str(sep)?;
        made.push_str(part.as_str())?;
    }
    Ok(made.done())
}

// Whether a character is a sign, as digits have one in front.
fn is_sign(c: char) -> bool
    ensures { result ≡ is_sign c }
{
    c == '+' || c == '-'
}

// The sign that a text begins with, and what follows it.
fn sign_of(text: &str) -> Option<(char, &str)>
    ensures none { result ≡ None → (n : ℕ) → zeros_behind n (chars text.now) ≡ replicate n 48 ++ chars text.now }
    ensures some { IfSome result (λ p. (n : ℕ) → zeros_behind n (chars text.now) ≡ p.0 ∷ (replicate n 48 ++ chars p.1.now)) }
{
    let (c, behind) = first_char(text)?;
    if is_sign(c) { Some((c, behind)) } else { None }
}

// Sixty-four zeros, which are added in one step.
fn zeros() -> &'static str
    ensures { chars result.now ≡ replicate 64 48 }
{
    "0000000000000000000000000000000000000000000000000000000000000000"
}

// Adds so many zeros at the end.
fn push_zeros(made: &mut Draft, count: usize) -> Result<(), NoMemory>
    ensures { OnOk result (made.new ≡ made.old ++ replicate count 48) }
{
    push_copies(made, zeros(), count / 64)?;
    made.push_str(text_between(zeros(), 64, 0, count % 64))?;
    Ok(())
}

// A text with so many zeros in front, behind its sign.
fn zeros_in(alloc: Global, zeros: usize, text: &str) -> Result<PyText, NoMemory>
    ensures { IfOk result (λ t. t ≡ zeros_behind zeros (chars text.now)) }
{
    let mut made = Draft::with_room(alloc, zeros.saturating_add(text.len()))?;
    match sign_of(text) {
        None => {
            push_zeros(&mut made, zeros)?;
            made.push_str(text)?;
            Ok(made.done())
        }
        Some((sign, behind)) => {
            made.push(sign)?;
            push_zeros(&mut made, zeros)?;
            made.push_str(behind)?;
            Ok(made.done())
        }
    }
}

// A text before each character of another and at its end.
fn with_between(alloc: Global, text: &str, new: &str) -> Result<PyText, NoMemory>
    ensures { IfOk result (λ t. t ≡ between (chars new.now) (chars text.now)) }
{
    let mut made = Draft::with_room(alloc, text.len())?;
    let mut rest = text;
    'characters: while let Some((c, behind)) = first_char(rest) {
        made.push_str(new)?;
        made.push(c)?;
        rest = behind;
    }
    made.push_str(new)?;
    Ok(made.done())
}

// A text with another in place of each occurrence of a part.
fn with_replaced(alloc: Global, text: &str, part: &str, other: &str) -> Result<PyText, NoMemory>
    requires { part.now ≢ [] }
    ensures { IfOk result (λ t. t ≡ joined (chars other.now) (pieces (chars part.now) (chars text.now))) }
{
    // With room for a few short ones more, most texts are not moved as they grow.
    let more = other.len().min(8).saturating_mul(8);
    let room = text.len().saturating_add(more);
    let mut made = Draft::with_room(alloc, room)?;
    let mut rest = text;
    'cuts: while let Some((before, behind)) = first_split(rest, part) {
        made.push_str(before)?;
        made.push_str(other)?;
        rest = behind;
    }
    made.push_str(rest)?;
    Ok(made.done())
}

impl PyText {
    /// `s + b`.
    pub fn concat(&self, b: &PyText, most: usize) -> Result<PyText, Long>
        ensures { UpTo most (self.now ++ b.now) result }
    {
        if !sum_fits(self.len(), b.len(), most) {
            return Err(Long::TooLong);
        }
        Ok(pair_of(self.allocator(), self.as_str(), b.as_str())?)
    }

    /// `s * times`: `"ab"` three times is `"ababab"`. The empty text takes no time, however often.
    pub fn repeat(&self, times: usize, most: usize) -> Result<PyText, Long>
        ensures { UpTo most (repeated times self.now) result }
    {
        let planned = Planned {
            times,
            each: self.len(),
            besides: 0,
        };
        if !planned.is_within(most) {
            return Err(Long::TooLong);
        }
        Ok(copies_of(self.allocator(), self.as_str(), times)?)
    }

    /// `str.join`: `", "` joins `"a"` and `"b"` to `"a, b"`.
    pub fn join(&self, parts: &Texts, most: usize) -> Result<PyText, Long>
        ensures { UpTo most (joined self.now parts.now) result }
    {
        if !joined_fits(self, parts.as_slice(), most) {
            return Err(Long::TooLong);
        }
        Ok(joined_with(self.allocator(), self.as_str(), parts.as_slice())?)
    }

    /// `str.zfill`: `"-7"` at width 4 is `"-007"`. A text that is as wide already stays as it is.
    pub fn zfill(&self, width: usize, most: usize) -> Result<PyText, Long>
        ensures { UpTo most (filled width self.now) result }
    {
        let len = self.len();
        if len > most || width > most {
            return Err(Long::TooLong);
        }
        let zeros = width.saturating_sub(len);
        Ok(zeros_in(self.allocator(), zeros, self.as_str())?)
    }

    /// `str.replace`: `"a"` by `"xy"` in `"banana"` gives `"bxynxynxy"`. The empty text stands before each character and
    /// at the end.
    pub fn replace(&self, old: &PyText, new: &PyText, most: usize) -> Result<PyText, Long>
        ensures { UpTo most (replaced old.now new.now self.now) result }
    {
        if old.len() == 0 {
            return self.replace_empty(new, most);
        }
        if !replaced_fits(self, old, new, most) {
            return Err(Long::TooLong);
        }
        Ok(with_replaced(self.allocator(), self.as_str(), old.as_str(), new.as_str())?)
    }

    // The text with another before each character and at the end.
    fn replace_empty(&self, new: &PyText, most: usize) -> Result<PyText, Long>
        ensures { UpTo most (between new.now self.now) result }
    {
        let (len, step) = (self.len(), new.len());
        let planned = Planned {
            times: len,
            each: step,
            besides: len,
        };
        if step > most || !planned.is_within(most - step) {
            return Err(Long::TooLong);
        }
        Ok(with_between(self.allocator(), self.as_str(), new.as_str())?)
    }
}

/// What replacing makes is the pieces of the text with the new part between them. The empty part cuts before each
/// character and at the end.
pub fn replacing_is_joining()
    ensures { ReplaceLaw }
{}

/// Filling with zeros adds so many characters, behind a sign that stays in front.
pub fn zeros_stand_behind_the_sign()
    ensures { ZerosLaw }
{}

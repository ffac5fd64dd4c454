// Texts cut into lists of texts.
ghost use Rattle.std.specs.Prelude.{◌≡◌, ◌≢◌, ◌<◌, [], ◌∷◌, ◌++◌, None, filter, length, IfOk, IfSome, OnOk};
ghost use Rattle.std.specs.Str.{chars};
ghost use Rattle.tx_text.specs.Text.{is_blank, is_some_text, pieces, split_where, words};
ghost use Rattle.tx_text.specs.Laws.{FirstCutsLaw, PiecesLaw, WordsLaw};

use crate::points::first_char;
use crate::search::first_split;
use crate::strip::is_blank;
use crate::{NoMemory, PyText, Texts};
use std::alloc::Global;

// The pieces of a text between the occurrences of a separator.
fn pieces_of(alloc: Global, text: &str, sep: &str) -> Result<Texts, NoMemory>
    requires { sep.now ≢ [] }
    ensures { IfOk result (λ t. t ≡ pieces (chars sep.now) (chars text.now)) }
{
    let mut found = Texts::new(alloc);
    let mut rest = text;
    'cuts: while let Some((before, behind)) = first_split(rest, sep) {
        found.push(PyText::from_str(alloc, before)?)?;
        rest = behind;
    }
    found.push(PyText::from_str(alloc, rest)?)?;
    Ok(found)
}

// Adds a text at the end of a list, unless it is empty.
fn push_some(found: &mut Texts, alloc: Global, text: &str) -> Result<(), NoMemory>
    ensures { OnOk result (found.new ≡ found.old ++ filter is_some_text (chars text.now ∷ [])) }
{
    if text.is_empty() {
        return Ok(());
    }
    found.push(PyText::from_str(alloc, text)?)?;
    Ok(())
}

// The text before its first blank, and the text behind that.
fn blank_split(text: &str) -> Option<(&str, &str)>
    ensures none { result ≡ None → split_where is_blank (chars text.now) ≡ chars text.now ∷ [] }
    ensures some { IfSome result (λ p. split_where is_blank (chars text.now) ≡ chars p.0.now ∷ split_where is_blank (chars p.1.now)) }
    ensures shorter { IfSome result (λ p. length p.1.now < length text.now) }
{
    let mut rest = text;
    'characters: while let Some((c, behind)) = first_char(rest) {
        if is_blank(c) {
            return Some((&text[..text.len() - rest.len()], behind));
        }
        rest = behind;
    }
    None
}

// The words of a text, between runs of whitespace.
fn words_of(alloc: Global, text: &str) -> Result<Texts, NoMemory>
    ensures { IfOk result (λ t. t ≡ words (chars text.now)) }
{
    let mut found = Texts::new(alloc);
    let mut rest = text;
    'words: while let Some((word, behind)) = blank_split(rest) {
        push_some(&mut found, alloc, word)?;
        rest = behind;
    }
    push_some(&mut found, alloc, rest)?;
    Ok(found)
}

impl PyText {
    /// `str.split` with a separator: `"a,,b"` at `","` gives `"a"`, `""` and `"b"`, and a text without the separator
    /// gives itself.
    pub fn split_on(&self, sep: &PyText) -> Result<Texts, NoMemory>
        requires { sep.now ≢ [] }
        ensures { IfOk result (λ t. t ≡ pieces sep.now self.now) }
    {
        pieces_of(self.allocator(), self.as_str(), sep.as_str())
    }

    /// `str.split` without a separator: `" a  b "` gives `"a"` and `"b"`, and a blank text gives no text at all.
    pub fn split_blank(&self) -> Result<Texts, NoMemory>
        ensures { IfOk result (λ t. t ≡ words self.now) }
    {
        words_of(self.allocator(), self.as_str())
    }
}

/// The pieces of a text joined by their separator are the text again, and no piece contains the separator.
pub fn pieces_are_the_text()
    ensures { PiecesLaw }
{}

/// Each piece but the last ends at the first place of the separator in what is left of the text, and the last has none:
/// the pieces are the only list of this kind.
pub fn pieces_end_at_first_places()
    ensures { FirstCutsLaw }
{}

/// The words of a text stand in it between blanks, are not empty and have no blank: they are the only list of this kind.
pub fn words_stand_between_blanks()
    ensures { WordsLaw }
{}

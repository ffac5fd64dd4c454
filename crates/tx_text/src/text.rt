// A text, kept as UTF-8 and seen as its code points.
ghost use Rattle.std.specs.Prelude.{◌≡◌, ◌↔◌, [], ◌∷◌, ◌++◌, length, OnOk, OnErr, IfOk, IsErrOf, IsUtf8, IsTrue, encode_utf8_all, slice_get, string_bytes};
ghost use Rattle.std.specs.Str.{chars};
ghost use Rattle.tx_text.specs.Examples.{Examples};
ghost use Rattle.tx_text.specs.Text.{part_of, less, first_place, last_place, count_of};

use crate::store::Store;
use crate::{NoMemory, points, search};
use std::alloc::Global;
use std::convert::AsStr;
use std::marker::Model;
use thiserror::Error;

/// Why bytes gave no text.
#[derive(Clone, Copy, Debug, PartialEq, Eq, Error)]
pub enum Utf8Fault {
    #[error("not UTF-8")]
    NotUtf8,
    #[error("out of memory")]
    NoMemory,
}

/// A text, seen as the list of its code points. One of up to 24 bytes stands in the value itself and takes no memory. A
/// longer one knows how many code points it has, so that `len` takes no time, and where each is one byte neither do
/// `char_at` and `slice`.
#[derive(Debug, Drop)]
pub struct PyText {
    alloc: Global,
    store: Store,
}

impl Model for PyText {
    ghost use Rattle.std.specs.Prelude.{List, ℕ};
    ghost use Rattle.std.specs.Str.{chars};
    ghost use Rattle.tx_text.specs.Calls.Store.{IsCounted, store_bytes};

    ghost Value = { List ℕ };

    ghost view = { λ t. chars (store_bytes t.store) };

    ghost invariant = { λ t. IsCounted t.store };
}

impl PyText {
    /// The empty text, which takes no memory yet.
    pub fn new(alloc: Global) -> Self
        ensures { result ≡ [] }
    {
        PyText {
            alloc,
            store: Store::new(),
        }
    }

    /// The text of a Rust string.
    pub fn from_str(alloc: Global, s: &str) -> Result<PyText, NoMemory>
        ensures { IfOk result (λ t. t ≡ chars s.now) }
    {
        let store = Store::from_str(alloc, s)?;
        Ok(PyText { alloc, store })
    }

    /// The text that bytes spell in UTF-8, as Python's `bytes.decode`.
    pub fn from_utf8(alloc: Global, b: &[u8]) -> Result<PyText, Utf8Fault>
        ensures ok { IfOk result (λ t. t ≡ chars b.now) }
        ensures utf8 { OnOk result (IsUtf8 b.now) }
        ensures fault { IsErrOf result Utf8Fault.NotUtf8 → IsUtf8 b.now → ⊥ }
    {
        let Ok(s) = str::from_utf8(b) else {
            return Err(Utf8Fault::NotUtf8);
        };
        match Store::from_str(alloc, s) {
            Ok(store) => Ok(PyText { alloc, store }),
            Err(_) => Err(Utf8Fault::NoMemory),
        }
    }

    /// The text for Rust's own string functions, as UTF-8.
    pub fn as_str(&self) -> &str
        ensures bytes { result.now ≡ encode_utf8_all self.now }
        ensures chars { chars result.now ≡ self.now }
    {
        self.store.as_str()
    }

    /// Adds a character at the end. Where memory is refused, the text is as before.
    pub fn push(&mut self, item: char) -> Result<(), NoMemory>
        ensures ok { OnOk result (self.new ≡ self.old ++ item ∷ []) }
        ensures err { OnErr result (self.new ≡ self.old) }
    {
        let mut buffer = [0; 4];
        self.store
            .push_str(self.alloc, item.encode_utf8(&mut buffer))
    }

    /// Adds the characters of a text at the end, or none where memory is refused.
    pub fn push_str(&mut self, more: &str) -> Result<(), NoMemory>
        ensures ok { OnOk result (self.new ≡ self.old ++ chars more.now) }
        ensures err { OnErr result (self.new ≡ self.old) }
    {
        self.store.push_str(self.alloc, more)
    }

    /// How many characters the text has, as Python's `len`: of `"aß€"` three. At most 24 bytes are read.
    pub fn len(&self) -> usize
        ensures { result ≡ length self.now }
    {
        self.store.count()
    }

    /// The character at a place, as Python's `text[at]` for a place from the front: of `"aß€"` at 1 it is `'ß'`.
    pub fn char_at(&self, at: usize) -> Option<char>
        ensures { result ≡ slice_get self.now at }
    {
        points::char_at(self.as_str(), self.len(), at)
    }

    /// The characters from a place to before another, as Python's `text[from:to]` for places from the front: of
    /// `"aß€"` from 1 to 9 it is `"ß€"`.
    pub fn slice(&self, from: usize, to: usize) -> Result<PyText, NoMemory>
        ensures { IfOk result (λ t. t ≡ part_of from to self.now) }
    {
        let count = self.len();
        let end = to.min(count);
        let start = from.min(end);
        PyText::from_str(
            self.alloc,
            points::text_between(self.as_str(), count, start, end),
        )
    }

    /// Whether two texts have the same characters, as Python's `==`.
    pub fn equal(&self, b: &PyText) -> bool
        ensures { IsTrue result ↔ (self.now ≡ b.now) }
    {
        self.as_str() == b.as_str()
    }

    /// Whether this text comes before another, as Python's `<`: `"a"` comes before `"ab"` and before `"é"`.
    pub fn less(&self, b: &PyText) -> bool
        ensures { result ≡ less self.now b.now }
    {
        points::comes_before(self.as_str(), b.as_str())
    }

    /// The first place where a part stands, as Python's `str.find`: of `"b"` in `"abab"` it is 1.
    pub fn find(&self, part: &PyText) -> Option<usize>
        ensures { result ≡ first_place part.now self.now }
    {
        search::find_first(self.as_str(), self.len(), part.as_str())
    }

    /// The last place where a part stands, as Python's `str.rfind`: of `"b"` in `"abab"` it is 3.
    pub fn rfind(&self, part: &PyText) -> Option<usize>
        ensures { result ≡ last_place part.now self.now }
    {
        search::find_last(self.as_str(), self.len(), part.as_str())
    }

    /// How often a part stands in the text without overlaps, as Python's `str.count`: of `"aa"` in `"aaaaa"` twice.
    pub fn count(&self, part: &PyText) -> usize
        ensures { result ≡ count_of part.now self.now }
    {
        search::count_parts(self.as_str(), self.len(), part.as_str())
    }

    // The text of a string.
    pub(crate) fn of_string(text: String) -> PyText
        ensures { result ≡ chars (string_bytes text) }
    {
        let alloc = *text.allocator();
        PyText {
            alloc,
            store: Store::of_string(text),
        }
    }

    // The allocator that the text keeps.
    pub(crate) fn allocator(&self) -> Global {
        self.alloc
    }
}

/// The examples that stand behind the definitions of texts are true.
pub fn examples_hold()
    ensures { Examples }
{}

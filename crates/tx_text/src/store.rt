// Where a text keeps its UTF-8: a short one in the value itself, which takes no memory, and a longer one in a string, beside
// how many characters it has.
ghost use Rattle.std.specs.Prelude.{◌≡◌, ◌++◌, [], length, IfOk, OnOk, OnErr, string_bytes};
ghost use Rattle.std.specs.Str.{chars};
ghost use Rattle.tx_text.specs.Calls.Store.{IsCounted, store_bytes};

use crate::NoMemory;
use crate::points::char_count;
use arrayvec::ArrayString;
use std::alloc::Global;

/// How many bytes a text has at most that takes no memory.
const INLINE: usize = 24;

#[derive(Debug, Drop)]
pub(crate) enum Store {
    Short(ArrayString<24>),
    /// A string, and how many characters it has.
    Long(String, usize),
}

impl Store {
    /// Nothing.
    pub(crate) fn new() -> Store
        ensures bytes { store_bytes result ≡ [] }
        ensures counted { IsCounted result }
    {
        Store::Short(ArrayString::new())
    }

    /// A string's bytes. Those of a short one are moved inside, and its memory is given back.
    pub(crate) fn of_string(text: String) -> Store
        ensures bytes { store_bytes result ≡ string_bytes text }
        ensures counted { IsCounted result }
    {
        let bytes = text.as_str();
        if bytes.len() <= INLINE {
            let mut short = ArrayString::new();
            short.push_str(bytes);
            return Store::Short(short);
        }
        let count = char_count(bytes);
        Store::Long(text, count)
    }

    /// The bytes of a text.
    pub(crate) fn from_str(alloc: Global, s: &str) -> Result<Store, NoMemory>
        ensures bytes { IfOk result (λ t. store_bytes t ≡ s.now) }
        ensures counted { IfOk result IsCounted }
    {
        match ArrayString::from(s) {
            Ok(text) => Ok(Store::Short(text)),
            Err(_) => Ok(Store::of_string(String::from_str(alloc, s)?)),
        }
    }

    /// The text for Rust's own string functions.
    pub(crate) fn as_str(&self) -> &str
        ensures { result.now ≡ store_bytes self.now }
    {
        match self {
            Store::Short(text) => text.as_str(),
            Store::Long(text, _) => text.as_str(),
        }
    }

    /// How many characters there are.
    pub(crate) fn count(&self) -> usize
        requires { IsCounted self.now }
        ensures { result ≡ length (chars (store_bytes self.now)) }
    {
        match self {
            Store::Short(text) => char_count(text.as_str()),
            Store::Long(_, count) => *count,
        }
    }

    /// Adds a text's bytes at the end. Where memory is refused, nothing is changed.
    pub(crate) fn push_str(&mut self, alloc: Global, more: &str) -> Result<(), NoMemory>
        requires { IsCounted self.old }
        ensures ok { OnOk result (chars (store_bytes self.new) ≡ chars (store_bytes self.old) ++ chars more.now) }
        ensures err { OnErr result (store_bytes self.new ≡ store_bytes self.old) }
        ensures counted { IsCounted self.new }
    {
        match self {
            Store::Long(text, count) => {
                text.push_str(more)?;
                *count += char_count(more);
                Ok(())
            }
            Store::Short(text) => {
                let longer = extended(*text, alloc, more)?;
                *self = longer;
                Ok(())
            }
        }
    }
}

// A short text with another behind it.
fn extended(text: ArrayString<24>, alloc: Global, more: &str) -> Result<Store, NoMemory>
    ensures bytes { IfOk result (λ t. chars (store_bytes t) ≡ chars text.bytes ++ chars more.now) }
    ensures counted { IfOk result IsCounted }
{
    let front = text.as_str();
    if more.len() <= INLINE - front.len() {
        let mut both = text;
        both.push_str(more);
        return Ok(Store::Short(both));
    }
    let mut longer = String::with_capacity(alloc, front.len().saturating_add(more.len()))?;
    longer.push_str(front)?;
    longer.push_str(more)?;
    Ok(Store::of_string(longer))
}

// A text in the making.
ghost use Rattle.std.specs.Prelude.{◌≡◌, [], ◌∷◌, ◌++◌, IfOk, OnOk};
ghost use Rattle.std.specs.Str.{chars};

use crate::{NoMemory, PyText};
use std::alloc::Global;
use std::marker::Model;

/// A text that is not whole yet. It stands in a string, and moves into the value at the end where it is short.
#[derive(Debug, Drop)]
pub(crate) struct Draft {
    text: String,
}

impl Model for Draft {
    ghost use Rattle.std.specs.Prelude.{List, ℕ, string_bytes};
    ghost use Rattle.std.specs.Str.{chars};

    ghost Value = { List ℕ };

    ghost view = { λ d. chars (string_bytes d.text) };
}

impl Draft {
    /// Nothing yet, with room for so many bytes, for one who then adds at most that much.
    pub(crate) fn with_room(alloc: Global, bytes: usize) -> Result<Draft, NoMemory>
        ensures { IfOk result (λ d. d ≡ []) }
    {
        let text = String::with_capacity(alloc, bytes)?;
        Ok(Draft { text })
    }

    /// Adds a character at the end.
    pub(crate) fn push(&mut self, item: char) -> Result<(), NoMemory>
        ensures { OnOk result (self.new ≡ self.old ++ item ∷ []) }
    {
        self.text.push(item)?;
        Ok(())
    }

    /// Adds the characters of a text at the end.
    pub(crate) fn push_str(&mut self, more: &str) -> Result<(), NoMemory>
        ensures { OnOk result (self.new ≡ self.old ++ chars more.now) }
    {
        self.text.push_str(more)?;
        Ok(())
    }

    /// The whole text.
    pub(crate) fn done(self) -> PyText
        ensures { result ≡ self }
    {
        PyText::of_string(self.text)
    }
}

// Sets of names, each with its place.
ghost use Rattle.std.specs.Prelude.{◌≡◌, [], length, map, not, take, IfOk, OnErr, OnOk};
ghost use Rattle.tx_tree.specs.Spell.{texts_of};
ghost use Rattle.tx_name_set.specs.NameSet.{is_in, add, add_all, place_in, slots_below};

use crate::name::Name;
use indexmap::IndexSet;
use std::alloc::Global;
use std::marker::Model;
use tx_text::{NoMemory, PyText};
use tx_tree::Word;

/// Names in the order in which they were met, each once. Contracts see the list of them.
#[derive(Drop)]
pub struct Names<'a> {
    set: IndexSet<Name<'a>>,
}

impl<'a> Model for Names<'a> {
    ghost use Rattle.std.specs.Prelude.{List, ℕ};

    ghost Value = { List (List ℕ) };

    ghost view = { λ s. s.set.keys };
}

impl<'a> Names<'a> {
    /// No name, which takes no memory yet.
    pub fn new(alloc: Global) -> Names<'a>
        ensures { result ≡ [] }
    {
        Names {
            set: IndexSet::new(alloc),
        }
    }

    /// How many names there are. Their places are those below that number.
    pub fn len(&self) -> usize
        ensures len { result ≡ length self.now }
        ensures places { map (place_in self.now) self.now ≡ slots_below (length self.now) }
    {
        self.set.len()
    }

    /// Adds a name where it is new, and answers whether it is. Where memory is refused, the names are as before.
    pub fn add(&mut self, name: &'a PyText) -> Result<bool, NoMemory>
        ensures added { OnOk result (self.new ≡ add self.old name.now) }
        ensures is_new { IfOk result (λ new. new ≡ not (is_in self.old name.now)) }
        ensures err { OnErr result (self.new ≡ self.old) }
    {
        Ok(self.set.insert(Name { text: name })?)
    }

    /// Adds names, each where it is new.
    pub fn add_texts(&mut self, names: &'a [PyText]) -> Result<(), NoMemory>
        ensures { OnOk result (self.new ≡ add_all self.old names.now) }
    {
        for name in names {
            self.add(name)?;
        }
        Ok(())
    }

    /// Adds the names of words, each where it is new.
    pub fn add_words(&mut self, words: &'a [Word]) -> Result<(), NoMemory>
        ensures { OnOk result (self.new ≡ add_all self.old (texts_of words.now)) }
    {
        for word in words {
            self.add(&word.text)?;
        }
        Ok(())
    }

    /// Whether a name is among them.
    pub fn has(&self, name: &PyText) -> bool
        ensures { result ≡ is_in self.now name.now }
    {
        let key = Name { text: name };
        self.set.contains(&key)
    }

    /// Whether a name is among the first ones.
    pub fn is_among_first(&self, count: usize, name: &PyText) -> bool
        ensures { result ≡ is_in (take count self.now) name.now }
    {
        let key = Name { text: name };
        match self.set.get_index_of(&key) {
            Some(place) => place < count,
            None => false,
        }
    }

    /// The place of a name, and how many there are for another.
    pub fn place(&self, name: &PyText) -> usize
        ensures { result ≡ place_in self.now name.now }
    {
        let key = Name { text: name };
        match self.set.get_index_of(&key) {
            Some(place) => place,
            None => self.set.len(),
        }
    }
}

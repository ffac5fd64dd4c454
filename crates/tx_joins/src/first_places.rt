// An index of first places.
ghost use Rattle.std.specs.Prelude.{◌≡◌, [], IfOk, OnOk, OnErr, length, not};
ghost use Rattle.tx_joins.specs.FirstPlaces.{number_of_key, place_of_number, seen_at, was_seen};

use indexmap::IndexMap;
use std::alloc::Global;
use std::marker::Model;
use tx_text::NoMemory;
use tx_values::Key;

/// Each key that was seen, with the place where it was seen first. Contracts see the list of these pairs, in the order of
/// the first places.
#[derive(Drop)]
pub struct FirstPlaces {
    places: IndexMap<Key, u32>,
}

impl Model for FirstPlaces {
    ghost use Rattle.std.specs.Prelude.{List, ℕ};
    ghost use Rattle.tx_values.specs.declared.key.Atom.{Atom};

    ghost Value = { List (List Atom × ℕ) };

    ghost view = { λ f. f.places.entries };
}

impl FirstPlaces {
    /// The empty index, which takes no memory yet.
    pub fn new(alloc: Global) -> Self
        ensures { result ≡ [] }
    {
        FirstPlaces {
            places: IndexMap::new(alloc),
        }
    }

    /// The empty index, with room for so many keys.
    pub(crate) fn with_room(alloc: Global, count: usize) -> Result<Self, NoMemory>
        ensures { IfOk result (λ f. f ≡ []) }
    {
        Ok(FirstPlaces {
            places: IndexMap::with_capacity(alloc, count)?,
        })
    }

    /// How many keys were seen.
    pub fn len(&self) -> usize
        ensures { result ≡ length self.now }
    {
        self.places.len()
    }

    /// The place where the key with this number was seen first.
    pub fn place(&self, number: usize) -> Option<u32>
        ensures { result ≡ place_of_number self.now number }
    {
        match self.places.get_index(number) {
            Some((_, place)) => Some(*place),
            None => None,
        }
    }

    /// Sees a key at a place. Answers its number among the keys in the order of their first places, that of a new key being
    /// how many there were, and whether it is new. Where memory is refused, the index is as before.
    pub fn see(&mut self, key: Key, place: u32) -> Result<(usize, bool), NoMemory>
        ensures number { IfOk result (λ r. r.0 ≡ number_of_key self.old key) }
        ensures is_new { IfOk result (λ r. r.1 ≡ not (was_seen self.old key)) }
        ensures seen { OnOk result (self.new ≡ seen_at self.old key place) }
        ensures err { OnErr result (self.new ≡ self.old) }
    {
        match self.places.get_index_of(&key) {
            Some(at) => Ok((at, false)),
            None => {
                let at = self.places.len();
                self.places.insert(key, place)?;
                Ok((at, true))
            }
        }
    }
}

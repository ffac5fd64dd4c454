// Columns by their names.
ghost use Rattle.std.specs.Prelude.{◌≡◌, [], IfOk, OnOk};
ghost use Rattle.tx_name_set.specs.NameSet.{is_in, add, add_all};
ghost use Rattle.tx_pipe.specs.Column.{bytes_of};

use indexmap::IndexSet;
use std::alloc::Global;
use std::hash::{Hash, Hasher};
use std::marker::Model;
use tx_text::{Bytes, NoMemory, PyText};

/// The name of a column as a key. Contracts see its bytes.
#[derive(Drop)]
struct ColumnName<'a> {
    bytes: &'a [u8],
}

impl<'a> Model for ColumnName<'a> {
    ghost use Rattle.std.specs.Prelude.{List, ℕ};

    ghost Value = { List ℕ };

    ghost view = { λ k. k.bytes.now };
}

impl<'a> PartialEq for ColumnName<'a> {
    ghost use Rattle.std.specs.Cmp.{partial_equiv_from_equiv, decided};
    ghost use Rattle.std.specs.Cmp.Lexicographic.{bytes_decides};
    ghost use Rattle.tx_tree.specs.Words.{same_text};

    ghost eq = { same_text };

    ghost laws = { partial_equiv_from_equiv (decided same_text bytes_decides) };

    fn eq(&self, other: &ColumnName<'a>) -> bool {
        self.bytes == other.bytes
    }
}

impl<'a> Eq for ColumnName<'a> {
    ghost use Rattle.std.specs.Cmp.{decided};
    ghost use Rattle.std.specs.Cmp.Lexicographic.{bytes_decides};
    ghost use Rattle.tx_tree.specs.Words.{same_text};

    ghost laws = { decided same_text bytes_decides };
}

impl<'a> Hash for ColumnName<'a> {
    ghost use Rattle.std.proofs.Common.{ap};
    ghost use Rattle.std.specs.Cmp.Lexicographic.{bytes_decides};
    ghost use Rattle.std.specs.Hash as fed;

    ghost hash_input = { fed.slice fed.u8 };

    ghost respects_eq = { λ x y t. ap (fed.slice fed.u8) ((bytes_decides x y).0 t) };

    fn hash<H: Hasher>(&self, state: &mut H) {
        self.bytes.hash(state);
    }
}

/// The names of some columns, each once. Contracts see their list.
#[derive(Drop)]
pub(crate) struct Columns<'a> {
    set: IndexSet<ColumnName<'a>>,
}

impl<'a> Model for Columns<'a> {
    ghost use Rattle.std.specs.Prelude.{List, ℕ};

    ghost Value = { List (List ℕ) };

    ghost view = { λ s. s.set.keys };
}

impl<'a> Columns<'a> {
    /// Adds a name, where it is new.
    fn add(&mut self, bytes: &'a [u8]) -> Result<(), NoMemory>
        ensures { OnOk result (self.new ≡ add self.old bytes.now) }
    {
        self.set.insert(ColumnName { bytes })?;
        Ok(())
    }

    /// The columns of these names.
    pub(crate) fn of(alloc: Global, names: &'a [Bytes]) -> Result<Columns<'a>, NoMemory>
        ensures { IfOk result (λ c. c ≡ add_all [] names.now) }
    {
        let mut columns = Columns {
            set: IndexSet::new(alloc),
        };
        for name in names {
            columns.add(name.as_slice())?;
        }
        Ok(columns)
    }

    /// Whether one has this name.
    pub(crate) fn has(&self, name: &PyText) -> bool
        ensures { result ≡ is_in self.now (bytes_of name.now) }
    {
        let key = ColumnName {
            bytes: name.as_str().as_bytes(),
        };
        self.set.contains(&key)
    }
}

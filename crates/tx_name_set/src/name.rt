// A name as a key.
use std::hash::{Hash, Hasher};
use std::marker::Model;
use tx_text::PyText;

/// A name as a key of a set. Contracts see its characters.
#[derive(Drop)]
pub(crate) struct Name<'a> {
    pub(crate) text: &'a PyText,
}

impl<'a> Model for Name<'a> {
    ghost use Rattle.std.specs.Prelude.{List, ℕ};

    ghost Value = { List ℕ };

    ghost view = { λ k. k.text.now };
}

impl<'a> PartialEq for Name<'a> {
    ghost use Rattle.std.specs.Cmp.{partial_equiv_from_equiv};
    ghost use Rattle.tx_tree.specs.Words.{same_text};
    ghost use Rattle.tx_name_set.specs.Calls.NameLaws.{name_equiv};

    ghost eq = { same_text };

    ghost laws = { partial_equiv_from_equiv name_equiv };

    fn eq(&self, other: &Name<'a>) -> bool {
        self.text.equal(other.text)
    }
}

impl<'a> Eq for Name<'a> {
    ghost use Rattle.tx_name_set.specs.Calls.NameLaws.{name_equiv};

    ghost laws = { name_equiv };
}

impl<'a> Hash for Name<'a> {
    ghost use Rattle.std.proofs.Common.{ap};
    ghost use Rattle.tx_name_set.specs.Calls.NameLaws.{name_decides, name_input};

    ghost hash_input = { name_input };

    ghost respects_eq = { λ x y t. ap name_input ((name_decides x y).0 t) };

    fn hash<H: Hasher>(&self, state: &mut H) {
        self.text.as_str().hash(state);
    }
}

// Keys: a hashable value as a flat list of atoms, which is equal and hashes alike where the value is equal.
ghost use Rattle.std.specs.Prelude.{◌≡◌, [], ◌∷◌, ◌++◌, true, false, IfOk, OnOk, Err};
ghost use Rattle.std.proofs.Common.{ap};
ghost use Rattle.std.specs.Cmp.{partial_equiv_from_equiv};
ghost use Rattle.tx_values.specs.Calls.KeyLaws.{atom_decides, atom_equiv, key_decides, key_equiv};
ghost use Rattle.tx_values.specs.Keys.{atom_input, key_input, key_of, same_atom, same_key};
ghost use Rattle.tx_values.specs.Calls.Lists.{keys_of, hashable_all};
ghost use Rattle.tx_values.specs.Valid.{hashable};

use crate::copying::copy_text;
use crate::{OpError, Value};
use std::alloc::Global;
use std::hash::{Hash, Hasher};
use std::marker::Model;
use tx_base::Class;
use tx_text::{NoMemory, PyText, Sequence};

/// A part of a key: a scalar, a number as an integer whether it was a truth value or not, or the length of a tuple, whose
/// items follow.
#[derive(Drop)]
pub(crate) enum Atom {
    Nil,
    Int(i128),
    Text(PyText),
    Tuple(usize),
}

impl PartialEq for Atom {
    ghost eq = { same_atom };

    ghost laws = { partial_equiv_from_equiv atom_equiv };

    fn eq(&self, other: &Atom) -> bool {
        match (self, other) {
            (Atom::Nil, Atom::Nil) => true,
            (Atom::Int(m), Atom::Int(n)) => *m == *n,
            (Atom::Text(s), Atom::Text(t)) => s.equal(t),
            (Atom::Tuple(m), Atom::Tuple(n)) => *m == *n,
            _ => false,
        }
    }
}

impl Eq for Atom {
    ghost laws = { atom_equiv };
}

impl Hash for Atom {
    ghost hash_input = { atom_input };

    ghost respects_eq = { λ x y t. ap atom_input ((atom_decides x y).0 t) };

    fn hash<H: Hasher>(&self, state: &mut H) {
        match self {
            Atom::Nil => state.write_u8(0),
            Atom::Int(n) => n.hash(state),
            Atom::Text(text) => text.as_str().hash(state),
            Atom::Tuple(len) => len.hash(state),
        }
    }
}

/// A hashable value as a key of a hash map. Contracts see its atoms. Its first atom lies in it, so the key of a scalar
/// takes no memory of its own, a long text aside.
#[derive(Drop)]
pub struct Key {
    first: Atom,
    rest: Sequence<Atom>,
}

impl Model for Key {
    ghost use Rattle.std.specs.Prelude.{List, ◌∷◌};
    ghost use Rattle.tx_values.specs.declared.key.Atom.{Atom};

    ghost Value = { List Atom };

    ghost view = { λ k. k.first ∷ k.rest };
}

impl PartialEq for Key {
    ghost eq = { same_key };

    ghost laws = { partial_equiv_from_equiv key_equiv };

    fn eq(&self, other: &Key) -> bool {
        self.first == other.first && self.rest.as_slice() == other.rest.as_slice()
    }
}

impl Eq for Key {
    ghost laws = { key_equiv };
}

impl Hash for Key {
    ghost hash_input = { key_input };

    ghost respects_eq = { λ x y t. ap key_input ((key_decides x y).0 t) };

    fn hash<H: Hasher>(&self, state: &mut H) {
        self.first.hash(state);
        Atom::hash_slice(self.rest.as_slice(), state);
    }
}

/// Whether a value can be a key: a list and a dictionary can not, and neither can a tuple that holds one.
#[cycle(hashable)]
pub fn hashable(a: &Value) -> bool
    ensures { result ≡ hashable a.now }
{
    match a {
        Value::Tuple(items) => hashable_all(items.as_slice()),
        Value::List(_) => false,
        Value::Dict(_) => false,
        _ => true,
    }
}

#[cycle(hashable)]
fn hashable_all(items: &[Value]) -> bool
    ensures { result ≡ hashable_all items.now }
{
    for item in items {
        if !hashable(item) {
            return false;
        }
    }
    true
}

// Adds the atoms of a value.
#[cycle(atoms)]
fn add_atoms(a: &Value, atoms: &mut Sequence<Atom>) -> Result<(), NoMemory>
    ensures { OnOk result (atoms.new ≡ atoms.old ++ key_of a.now) }
{
    match a {
        Value::Nil => atoms.push(Atom::Nil),
        Value::Truth(b) => atoms.push(Atom::Int(i128::from(*b))),
        Value::Int(n) => atoms.push(Atom::Int(*n)),
        Value::Text(text) => atoms.push(Atom::Text(copy_text(text)?)),
        Value::Tuple(items) => {
            atoms.push(Atom::Tuple(items.len()))?;
            add_all(items.as_slice(), atoms)
        }
        Value::List(_) => Ok(()),
        Value::Dict(_) => Ok(()),
    }
}

#[cycle(atoms)]
fn add_all(items: &[Value], atoms: &mut Sequence<Atom>) -> Result<(), NoMemory>
    ensures { OnOk result (atoms.new ≡ atoms.old ++ keys_of items.now) }
{
    for item in items {
        add_atoms(item, atoms)?;
    }
    Ok(())
}

fn key_of_scalar(alloc: Global, first: Atom) -> Key
    ensures { result ≡ first ∷ [] }
{
    Key {
        first,
        rest: Sequence::new(alloc),
    }
}

fn atoms_with_room(alloc: Global, count: usize) -> Result<Vec<Atom>, NoMemory>
    ensures { IfOk result (λ atoms. atoms.items ≡ []) }
{
    Ok(Vec::with_capacity(alloc, count)?)
}

/// The key of a value, or TypeError exactly where it is not hashable. Keys are equal exactly where their values are, and
/// equal keys hash alike (`keys_follow_equality`): `True` and `1` are one key.
pub fn key_of(alloc: Global, a: &Value) -> Result<Key, OpError>
    ensures key { IfOk result (λ k. k ≡ key_of a.now) }
    ensures hashable { OnOk result (hashable a.now ≡ true) }
    ensures unhashable { hashable a.now ≡ false → result ≡ Err (OpError.Raise Class.TypeError) }
    ensures raise { (class : Class) → result ≡ Err (OpError.Raise class) → (class ≡ Class.TypeError) × (hashable a.now ≡ false) }
{
    match a {
        Value::Nil => Ok(key_of_scalar(alloc, Atom::Nil)),
        Value::Truth(b) => Ok(key_of_scalar(alloc, Atom::Int(i128::from(*b)))),
        Value::Int(n) => Ok(key_of_scalar(alloc, Atom::Int(*n))),
        Value::Text(text) => Ok(key_of_scalar(alloc, Atom::Text(copy_text(text)?))),
        Value::Tuple(items) => key_of_items(alloc, items.as_slice()),
        Value::List(_) | Value::Dict(_) => Err(OpError::Raise(Class::TypeError)),
    }
}

/// The key of the tuple of these values, which need lie in no tuple, as the cells of a row.
pub fn key_of_items(alloc: Global, items: &[Value]) -> Result<Key, OpError>
    ensures key { IfOk result (λ k. k ≡ key_of (Value.Tuple items.now)) }
    ensures hashable { OnOk result (hashable (Value.Tuple items.now) ≡ true) }
    ensures unhashable { hashable (Value.Tuple items.now) ≡ false → result ≡ Err (OpError.Raise Class.TypeError) }
    ensures raise { (class : Class) → result ≡ Err (OpError.Raise class) → (class ≡ Class.TypeError) × (hashable (Value.Tuple items.now) ≡ false) }
{
    if !hashable_all(items) {
        return Err(OpError::Raise(Class::TypeError));
    }
    let mut rest = Sequence::from_vec(atoms_with_room(alloc, items.len())?);
    add_all(items, &mut rest)?;
    Ok(Key {
        first: Atom::Tuple(items.len()),
        rest,
    })
}

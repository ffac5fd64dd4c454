// The entries of a dictionary display.
ghost use Rattle.std.specs.Prelude.{◌≡◌, ◌++◌, [], ◌∷◌, position, IfOk, OnOk, Ok, Err};
ghost use Rattle.tx_base.specs.declared.class.Class.{Class};
ghost use Rattle.tx_values.specs.Equality.{equal};
ghost use Rattle.tx_meaning.specs.Containers.{enter, entered};

use std::alloc::Global;
use tx_base::Class;
use tx_text::NoMemory;
use tx_values::{OpError, Pairs, Value, copy, equal, hashable};

/// The dictionary of these pairs, entered from the front.
#[tactic(auto, using(crate::proofs::EntryLemmas::entering))]
pub(crate) fn dictionary(alloc: Global, pairs: &[(Value, Value)]) -> Result<Pairs, OpError>
    ensures value { IfOk result (λ ps. entered [] pairs.now ≡ Ok ps) }
    ensures raise { (c : Class) → result ≡ Err (OpError.Raise c) → entered [] pairs.now ≡ Err c }
{
    let mut entries = Vec::new(alloc);
    for pair in pairs {
        if !hashable(&pair.0) {
            return Err(OpError::Raise(Class::TypeError));
        }
        enter(alloc, &mut entries, &pair.0, &pair.1)?;
    }
    Ok(Pairs::from_vec(entries))
}

// Enters a pair: an equal key stays and takes the value.
#[tactic(auto, using(crate::proofs::EntryLemmas::entering))]
fn enter(
    alloc: Global,
    entries: &mut Vec<(Value, Value)>,
    key: &Value,
    new: &Value,
) -> Result<(), NoMemory>
    ensures { OnOk result (entries.new.items ≡ enter key.now new.now entries.old.items) }
{
    match place_of(entries.as_slice(), key) {
        Some(place) => {
            let new = copy(alloc, new)?;
            entries[place].1 = new;
        }
        None => push_pair(alloc, entries, key, new)?,
    }
    Ok(())
}

// A new pair stands last.
fn push_pair(
    alloc: Global,
    entries: &mut Vec<(Value, Value)>,
    key: &Value,
    new: &Value,
) -> Result<(), NoMemory>
    ensures { OnOk result (entries.new.items ≡ entries.old.items ++ (key.now, new.now) ∷ []) }
{
    let key = copy(alloc, key)?;
    let new = copy(alloc, new)?;
    entries.push((key, new))?;
    Ok(())
}

// The first place of an equal key.
fn place_of(entries: &[(Value, Value)], key: &Value) -> Option<usize>
    ensures { result ≡ position (λ p. equal key.now p.0) entries.now }
{
    entries.iter().position(|p| equal(key, &p.0))
}

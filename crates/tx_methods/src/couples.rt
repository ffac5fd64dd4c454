// Tuples of two: what `enumerate`, `zip` and `items` go through.
ghost use Rattle.std.specs.Prelude.{◌≡◌, Ok, Err, IfOk, map, zip, true, false};
ghost use Rattle.std.specs.List.{list_all};
ghost use Rattle.tx_base.specs.declared.class.Class.{Class};
ghost use Rattle.tx_values.specs.Limits.{in_limits};
ghost use Rattle.tx_methods.specs.Walks.{couple, couples, numbered};

use crate::limits::couple_fits;
use std::alloc::Global;
use tx_base::Class;
use tx_text::NoMemory;
use tx_values::{Items, OpError, Value, copy};

// A tuple of two values.
fn couple(alloc: Global, a: Value, b: Value) -> Result<Value, NoMemory>
    ensures { IfOk result (λ v. v ≡ couple (a, b)) }
{
    let mut items = Vec::with_capacity(alloc, 2)?;
    items.push(a)?;
    items.push(b)?;
    Ok(Value::Tuple(Items::from_vec(items)))
}

// Whether each pair makes a tuple within the limits.
fn pairs_fit(pairs: &[(Value, Value)]) -> bool
    ensures { result ≡ list_all (λ pair. in_limits (couple pair)) pairs.now }
{
    for pair in pairs {
        if !couple_fits(&pair.0, &pair.1) {
            return false;
        }
    }
    true
}

// The tuples of pairs.
fn tuples(alloc: Global, pairs: &[(Value, Value)]) -> Result<Items, NoMemory>
    ensures { IfOk result (λ items. items ≡ map couple pairs.now) }
{
    let mut made = Vec::with_capacity(alloc, pairs.len())?;
    for pair in pairs {
        let key = copy(alloc, &pair.0)?;
        let value = copy(alloc, &pair.1)?;
        made.push(couple(alloc, key, value)?)?;
    }
    Ok(Items::from_vec(made))
}

/// The tuples of pairs, where each is within the limits: a dictionary's items.
pub(crate) fn pair_tuples(alloc: Global, pairs: &[(Value, Value)]) -> Result<Items, OpError>
    ensures value { IfOk result (λ items. couples pairs.now ≡ Ok items) }
    ensures raise { (c : Class) → result ≡ Err (OpError.Raise c) → couples pairs.now ≡ Err c }
{
    if !pairs_fit(pairs) {
        return Err(OpError::Raise(Class::ProfileError));
    }
    Ok(tuples(alloc, pairs)?)
}

// Whether each two items side by side make a tuple within the limits.
#[tactic(auto, using(crate::proofs::Zips::zip_rules))]
fn zip_fits(lefts: &[Value], rights: &[Value]) -> bool
    ensures { result ≡ list_all (λ pair. in_limits (couple pair)) (zip lefts.now rights.now) }
{
    let count = lefts.len().min(rights.len());
    for at in 0..count {
        if !couple_fits(&lefts[at], &rights[at]) {
            return false;
        }
    }
    true
}

// The tuples of items side by side, as many as the shorter list has.
#[tactic(auto, using(crate::proofs::Zips::zip_rules))]
fn zipped(alloc: Global, lefts: &[Value], rights: &[Value]) -> Result<Items, NoMemory>
    ensures { IfOk result (λ items. items ≡ map couple (zip lefts.now rights.now)) }
{
    let count = lefts.len().min(rights.len());
    let mut made = Vec::with_capacity(alloc, count)?;
    for at in 0..count {
        let left = copy(alloc, &lefts[at])?;
        let right = copy(alloc, &rights[at])?;
        made.push(couple(alloc, left, right)?)?;
    }
    Ok(Items::from_vec(made))
}

/// `zip` of two lists of items, where each tuple is within the limits.
pub(crate) fn zip_tuples(alloc: Global, lefts: &[Value], rights: &[Value]) -> Result<Items, OpError>
    ensures value { IfOk result (λ items. couples (zip lefts.now rights.now) ≡ Ok items) }
    ensures raise { (c : Class) → result ≡ Err (OpError.Raise c) → couples (zip lefts.now rights.now) ≡ Err c }
{
    if !zip_fits(lefts, rights) {
        return Err(OpError::Raise(Class::ProfileError));
    }
    Ok(zipped(alloc, lefts, rights)?)
}

// Whether each item behind its place makes a tuple within the limits.
fn numbered_fits(items: &[Value]) -> bool
    ensures { result ≡ list_all (λ pair. in_limits (couple pair)) (numbered 0 items.now) }
{
    for place in 0..items.len() {
        if !couple_fits(&Value::Int(0), &items[place]) {
            return false;
        }
    }
    true
}

// The tuples of items, each behind its place.
fn numbered(alloc: Global, items: &[Value]) -> Result<Items, NoMemory>
    ensures { IfOk result (λ made. made ≡ map couple (numbered 0 items.now)) }
{
    let mut made = Vec::with_capacity(alloc, items.len())?;
    for place in 0..items.len() {
        let item = copy(alloc, &items[place])?;
        made.push(couple(alloc, Value::Int(place as i128), item)?)?;
    }
    Ok(Items::from_vec(made))
}

/// `enumerate` of a list of items, where each tuple is within the limits.
pub(crate) fn numbered_tuples(alloc: Global, items: &[Value]) -> Result<Items, OpError>
    ensures value { IfOk result (λ made. couples (numbered 0 items.now) ≡ Ok made) }
    ensures raise { (c : Class) → result ≡ Err (OpError.Raise c) → couples (numbered 0 items.now) ≡ Err c }
{
    if !numbered_fits(items) {
        return Err(OpError::Raise(Class::ProfileError));
    }
    Ok(numbered(alloc, items)?)
}

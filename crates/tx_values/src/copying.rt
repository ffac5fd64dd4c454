// Copies of values.
ghost use Rattle.std.specs.Prelude.{◌≡◌, IfOk, length};
ghost use Rattle.std.specs.Vec.{vec_capacity};

use crate::{Items, Pairs, Value};
use std::alloc::Global;
use tx_text::{NoMemory, PyText};

/// The same value, made anew. Its lists take exactly the room that their items need (`copies_of`).
#[cycle(copy)]
pub fn copy(alloc: Global, a: &Value) -> Result<Value, NoMemory>
    ensures { IfOk result (λ c. c ≡ a.now) }
{
    match a {
        Value::Nil => Ok(Value::Nil),
        Value::Truth(b) => Ok(Value::Truth(*b)),
        Value::Int(n) => Ok(Value::Int(*n)),
        Value::Text(text) => Ok(Value::Text(copy_text(text)?)),
        Value::Tuple(items) => Ok(Value::Tuple(Items::from_vec(copies_of(
            alloc,
            items.as_slice(),
        )?))),
        Value::List(items) => Ok(Value::List(Items::from_vec(copies_of(alloc, items.as_slice())?))),
        Value::Dict(pairs) => Ok(Value::Dict(Pairs::from_vec(copies_of_pairs(
            alloc,
            pairs.as_slice(),
        )?))),
    }
}

pub(crate) fn copy_text(text: &PyText) -> Result<PyText, NoMemory>
    ensures { IfOk result (λ c. c ≡ text.now) }
{
    text.slice(0, text.len())
}

#[cycle(copy)]
pub(crate) fn copies_of(alloc: Global, items: &[Value]) -> Result<Vec<Value>, NoMemory>
    ensures same { IfOk result (λ copies. copies.items ≡ items.now) }
    ensures room { IfOk result (λ copies. vec_capacity copies ≡ length items.now) }
{
    let mut copies = Vec::with_capacity(alloc, items.len())?;
    for item in items {
        copies.push_reserved(copy(alloc, item)?);
    }
    Ok(copies)
}

/// The same values, made anew, in a list that takes exactly the room that they need.
pub fn copy_items(alloc: Global, items: &[Value]) -> Result<Items, NoMemory>
    ensures { IfOk result (λ made. made ≡ items.now) }
{
    Ok(Items::from_vec(copies_of(alloc, items)?))
}

#[cycle(copy)]
fn copies_of_pairs(alloc: Global, pairs: &[(Value, Value)]) -> Result<Vec<(Value, Value)>, NoMemory>
    ensures same { IfOk result (λ copies. copies.items ≡ pairs.now) }
    ensures room { IfOk result (λ copies. vec_capacity copies ≡ length pairs.now) }
{
    let mut copies = Vec::with_capacity(alloc, pairs.len())?;
    for pair in pairs {
        let key = copy(alloc, &pair.0)?;
        let value = copy(alloc, &pair.1)?;
        copies.push_reserved((key, value));
    }
    Ok(copies)
}

// The item of a sequence, and the value of a dictionary.
ghost use Rattle.std.specs.Prelude.{◌≡◌, [], ◌∷◌, IfOk, Ok, Err};
ghost use Rattle.tx_base.specs.declared.class.Class.{Class};
ghost use Rattle.tx_ops.specs.Index.{character_at, index_of, item_at, place_at, value_at};
ghost use Rattle.tx_values.specs.Operand.{operand};

use crate::operand::number_in;
use std::alloc::Global;
use tx_base::Class;
use tx_num::place_of;
use tx_text::{NoMemory, PyText};
use tx_values::{OpError, Value, copy, hashable, value_under};

/// `base[at]` (Language Reference, "Subscriptions"): `"abc"[-1]` is `"c"`, `(1, 2)[2]` an IndexError, and `{1: "a"}[True]` is
/// `"a"`. Memory is taken for the result alone. A key of a dictionary is looked for from the front.
pub fn index(alloc: Global, base: &Value, at: &Value) -> Result<Value, OpError>
    ensures value { IfOk result (λ v. index_of base.now at.now ≡ Ok v) }
    ensures raise { (c : Class) → result ≡ Err (OpError.Raise c) → index_of base.now at.now ≡ Err c }
{
    match base {
        Value::Text(text) => character_at(alloc, text, at),
        Value::Tuple(items) => item_at(alloc, items.as_slice(), at),
        Value::List(items) => item_at(alloc, items.as_slice(), at),
        Value::Dict(pairs) => value_at(alloc, pairs.as_slice(), at),
        _ => Err(OpError::Raise(Class::TypeError)),
    }
}

// The place that an index means among so many items.
fn place_at(count: usize, at: &Value) -> Result<usize, OpError>
    ensures value { IfOk result (λ place. place_at count (operand at.now) ≡ Ok place) }
    ensures raise { (c : Class) → result ≡ Err (OpError.Raise c) → place_at count (operand at.now) ≡ Err c }
{
    match number_in(at) {
        None => Err(OpError::Raise(Class::TypeError)),
        Some(index) => match place_of(count, index) {
            Some(place) => Ok(place),
            None => Err(OpError::Raise(Class::IndexError)),
        },
    }
}

fn character_at(alloc: Global, text: &PyText, at: &Value) -> Result<Value, OpError>
    ensures value { IfOk result (λ v. character_at text.now (operand at.now) ≡ Ok v) }
    ensures raise { (c : Class) → result ≡ Err (OpError.Raise c) → character_at text.now (operand at.now) ≡ Err c }
{
    let place = place_at(text.len(), at)?;
    match text.char_at(place) {
        Some(c) => Ok(Value::Text(text_of_one(alloc, c)?)),
        None => Err(OpError::Raise(Class::IndexError)),
    }
}

fn text_of_one(alloc: Global, c: char) -> Result<PyText, NoMemory>
    ensures { IfOk result (λ t. t ≡ c ∷ []) }
{
    let mut text = PyText::new(alloc);
    text.push(c)?;
    Ok(text)
}

fn item_at(alloc: Global, items: &[Value], at: &Value) -> Result<Value, OpError>
    ensures value { IfOk result (λ v. item_at items.now (operand at.now) ≡ Ok v) }
    ensures raise { (c : Class) → result ≡ Err (OpError.Raise c) → item_at items.now (operand at.now) ≡ Err c }
{
    let place = place_at(items.len(), at)?;
    match items.get(place) {
        Some(item) => Ok(copy(alloc, item)?),
        None => Err(OpError::Raise(Class::IndexError)),
    }
}

fn value_at(alloc: Global, pairs: &[(Value, Value)], key: &Value) -> Result<Value, OpError>
    ensures value { IfOk result (λ v. value_at pairs.now key.now ≡ Ok v) }
    ensures raise { (c : Class) → result ≡ Err (OpError.Raise c) → value_at pairs.now key.now ≡ Err c }
{
    if !hashable(key) {
        return Err(OpError::Raise(Class::TypeError));
    }
    match value_under(pairs, key) {
        Some(value) => Ok(copy(alloc, value)?),
        None => Err(OpError::Raise(Class::KeyError)),
    }
}

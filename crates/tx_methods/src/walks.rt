// What a `for` or a comprehension goes through.
ghost use Rattle.std.specs.Prelude.{◌≡◌, Ok, Err, IfOk, map};
ghost use Rattle.std.specs.Str.{chars};
ghost use Rattle.tx_base.specs.declared.class.Class.{Class};
ghost use Rattle.tx_methods.specs.Arguments.{only};
ghost use Rattle.tx_methods.specs.Walks.{a_dictionary, character, enumerate_items, items_of_walk, iterate_of, one_dictionary, zip_behind, zip_items};
ghost use Rattle.tx_methods.specs.Calls.{keys_of, values_of};

use crate::arguments::{both, only};
use crate::couples::{numbered_tuples, pair_tuples, zip_tuples};
use crate::ranges::range_items;
use std::alloc::Global;
use tx_base::Class;
use tx_text::{NoMemory, PyText, first_char};
use tx_tree::Walk;
use tx_values::{Items, OpError, Pairs, Value, copy, copy_items};

// A text of one character.
fn character(alloc: Global, c: char) -> Result<Value, NoMemory>
    ensures { IfOk result (λ v. v ≡ character c) }
{
    let mut text = PyText::new(alloc);
    text.push(c)?;
    Ok(Value::Text(text))
}

/// The characters of a text, each a text of its own.
pub(crate) fn characters(alloc: Global, text: &str, count: usize) -> Result<Items, NoMemory>
    ensures { IfOk result (λ items. items ≡ map character (chars text.now)) }
{
    let mut made = Vec::with_capacity(alloc, count)?;
    let mut rest = text;
    'characters: while let Some((c, behind)) = first_char(rest) {
        made.push(character(alloc, c)?)?;
        rest = behind;
    }
    Ok(Items::from_vec(made))
}

/// The keys of pairs, made anew.
pub(crate) fn keys_of(alloc: Global, pairs: &[(Value, Value)]) -> Result<Items, NoMemory>
    ensures { IfOk result (λ keys. keys ≡ keys_of pairs.now) }
{
    let mut made = Vec::with_capacity(alloc, pairs.len())?;
    for pair in pairs {
        made.push(copy(alloc, &pair.0)?)?;
    }
    Ok(Items::from_vec(made))
}

// The values of pairs, made anew.
fn values_of(alloc: Global, pairs: &[(Value, Value)]) -> Result<Items, NoMemory>
    ensures { IfOk result (λ values. values ≡ values_of pairs.now) }
{
    let mut made = Vec::with_capacity(alloc, pairs.len())?;
    for pair in pairs {
        made.push(copy(alloc, &pair.1)?)?;
    }
    Ok(Items::from_vec(made))
}

/// The items of a value, made anew: the characters of a text, the items of a tuple or list, the keys of a dictionary. Any
/// other value is TypeError.
pub fn iterate(alloc: Global, v: &Value) -> Result<Items, OpError>
    ensures value { IfOk result (λ items. iterate_of v.now ≡ Ok items) }
    ensures raise { (c : Class) → result ≡ Err (OpError.Raise c) → iterate_of v.now ≡ Err c }
{
    match v {
        Value::Text(text) => Ok(characters(alloc, text.as_str(), text.len())?),
        Value::Tuple(items) => Ok(copy_items(alloc, items.as_slice())?),
        Value::List(items) => Ok(copy_items(alloc, items.as_slice())?),
        Value::Dict(pairs) => Ok(keys_of(alloc, pairs.as_slice())?),
        _ => Err(OpError::Raise(Class::TypeError)),
    }
}

// `enumerate(v)`; a list's items are not copied twice.
fn enumerate_items(alloc: Global, v: &Value) -> Result<Items, OpError>
    ensures value { IfOk result (λ items. enumerate_items v.now ≡ Ok items) }
    ensures raise { (c : Class) → result ≡ Err (OpError.Raise c) → enumerate_items v.now ≡ Err c }
{
    match v {
        Value::Tuple(items) => numbered_tuples(alloc, items.as_slice()),
        Value::List(items) => numbered_tuples(alloc, items.as_slice()),
        _ => {
            let items = iterate(alloc, v)?;
            numbered_tuples(alloc, items.as_slice())
        }
    }
}

// `zip` of a list of items and a value.
fn zip_behind(alloc: Global, lefts: &[Value], w: &Value) -> Result<Items, OpError>
    ensures value { IfOk result (λ items. zip_behind lefts.now w.now ≡ Ok items) }
    ensures raise { (c : Class) → result ≡ Err (OpError.Raise c) → zip_behind lefts.now w.now ≡ Err c }
{
    match w {
        Value::Tuple(items) => zip_tuples(alloc, lefts, items.as_slice()),
        Value::List(items) => zip_tuples(alloc, lefts, items.as_slice()),
        _ => {
            let items = iterate(alloc, w)?;
            zip_tuples(alloc, lefts, items.as_slice())
        }
    }
}

// `zip(v, w)`.
fn zip_items(alloc: Global, v: &Value, w: &Value) -> Result<Items, OpError>
    ensures value { IfOk result (λ items. zip_items v.now w.now ≡ Ok items) }
    ensures raise { (c : Class) → result ≡ Err (OpError.Raise c) → zip_items v.now w.now ≡ Err c }
{
    match v {
        Value::Tuple(items) => zip_behind(alloc, items.as_slice(), w),
        Value::List(items) => zip_behind(alloc, items.as_slice(), w),
        _ => {
            let items = iterate(alloc, v)?;
            zip_behind(alloc, items.as_slice(), w)
        }
    }
}

// A dictionary.
fn a_dictionary(a: &Value) -> Result<&Pairs, OpError>
    ensures value { IfOk result (λ pairs. a_dictionary a.now ≡ Ok pairs.now) }
    ensures raise { (c : Class) → result ≡ Err (OpError.Raise c) → a_dictionary a.now ≡ Err c }
{
    match a {
        Value::Dict(pairs) => Ok(pairs),
        _ => Err(OpError::Raise(Class::TypeError)),
    }
}

// The one argument, a dictionary.
fn one_dictionary(args: &[Value]) -> Result<&Pairs, OpError>
    ensures value { IfOk result (λ pairs. one_dictionary args.now ≡ Ok pairs.now) }
    ensures raise { (c : Class) → result ≡ Err (OpError.Raise c) → one_dictionary args.now ≡ Err c }
{
    a_dictionary(only(args)?)
}

/// The items of a walk: `range(2, 5)` gives 2, 3 and 4. A view takes the dictionary as its one argument. The list has no
/// limit of its own; an item that is a tuple past one is ProfileError, and so are more than 1,048,576 items of a `range`.
pub fn items_of(alloc: Global, w: Walk, args: &Items) -> Result<Items, OpError>
    ensures value { IfOk result (λ items. items_of_walk w args.now ≡ Ok items) }
    ensures raise { (c : Class) → result ≡ Err (OpError.Raise c) → items_of_walk w args.now ≡ Err c }
{
    let args = args.as_slice();
    match w {
        Walk::Range => range_items(alloc, args),
        Walk::Enumerate => enumerate_items(alloc, only(args)?),
        Walk::Zip => {
            let (v, w) = both(args)?;
            zip_items(alloc, v, w)
        }
        Walk::Items => pair_tuples(alloc, one_dictionary(args)?.as_slice()),
        Walk::Keys => Ok(keys_of(alloc, one_dictionary(args)?.as_slice())?),
        Walk::Values => Ok(values_of(alloc, one_dictionary(args)?.as_slice())?),
    }
}

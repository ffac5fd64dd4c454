// `join`.
ghost use Rattle.std.specs.Prelude.{◌≡◌, Ok, Err, IfOk, map};
ghost use Rattle.tx_base.specs.declared.class.Class.{Class};
ghost use Rattle.tx_text.specs.Text.{joined};
ghost use Rattle.tx_methods.specs.Calls.{joined_weight, keys_of};
ghost use Rattle.tx_methods.specs.Walks.{character};
ghost use Rattle.tx_methods.specs.TextMethods.{join_items, join_of, join_value, made_text, texts_in};

use crate::arguments::{a_text, only};
use crate::limits::{MOST, made_text};
use crate::walks::{characters, keys_of};
use std::alloc::Global;
use tx_base::Class;
use tx_text::{PyText, Texts};
use tx_values::{OpError, Value};

// These items, which are texts.
fn texts_of(alloc: Global, items: &[Value]) -> Result<Texts, OpError>
    ensures value { IfOk result (λ texts. texts_in items.now ≡ Ok texts) }
    ensures raise { (c : Class) → result ≡ Err (OpError.Raise c) → texts_in items.now ≡ Err c }
{
    let mut texts = Texts::new(alloc);
    for item in items {
        let text = a_text(item)?;
        texts.push(text.slice(0, text.len())?)?;
    }
    Ok(texts)
}

// Texts with one between them, within the limits.
fn joined_within(sep: &PyText, texts: &Texts) -> Result<Value, OpError>
    ensures value { IfOk result (λ v. made_text (joined sep.now texts.now) ≡ Ok v) }
    ensures raise { (c : Class) → result ≡ Err (OpError.Raise c) → made_text (joined sep.now texts.now) ≡ Err c }
{
    made_text(sep.join(texts, MOST))
}

// The weight of these items, which are texts, with one of so many characters behind each, as far as the type goes.
fn joined_weight(each: usize, items: &[Value]) -> Result<usize, OpError>
    ensures value { IfOk result (λ n. joined_weight 0 each items.now ≡ Ok n) }
    ensures raise { (c : Class) → result ≡ Err (OpError.Raise c) → joined_weight 0 each items.now ≡ Err c }
{
    let mut sum: usize = 0;
    for item in items {
        let text = a_text(item)?;
        sum = sum.saturating_add(text.len()).saturating_add(each);
    }
    Ok(sum)
}

// The same of the keys of pairs.
fn joined_weight_of_keys(each: usize, pairs: &[(Value, Value)]) -> Result<usize, OpError>
    ensures value { IfOk result (λ n. joined_weight 0 each (keys_of pairs.now) ≡ Ok n) }
    ensures raise { (c : Class) → result ≡ Err (OpError.Raise c) → joined_weight 0 each (keys_of pairs.now) ≡ Err c }
{
    let mut sum: usize = 0;
    for pair in pairs {
        let text = a_text(&pair.0)?;
        sum = sum.saturating_add(text.len()).saturating_add(each);
    }
    Ok(sum)
}

// `join` of items that are at hand. What weighs too much is refused before a text is copied.
#[tactic(auto, using(crate::proofs::JoinWeights::weight_rules))]
fn join_items(alloc: Global, sep: &PyText, items: &[Value]) -> Result<Value, OpError>
    ensures value { IfOk result (λ v. join_items sep.now items.now ≡ Ok v) }
    ensures raise { (c : Class) → result ≡ Err (OpError.Raise c) → join_items sep.now items.now ≡ Err c }
{
    let each = sep.len();
    let heavy = joined_weight(each, items)?;
    if heavy > MOST.saturating_add(each) {
        return Err(OpError::Raise(Class::ProfileError));
    }
    let texts = texts_of(alloc, items)?;
    joined_within(sep, &texts)
}

// `join` of the characters of a text, likewise.
#[tactic(auto, using(crate::proofs::JoinWeights::weight_rules))]
fn join_characters(alloc: Global, sep: &PyText, text: &PyText) -> Result<Value, OpError>
    ensures value { IfOk result (λ v. join_items sep.now (map character text.now) ≡ Ok v) }
    ensures raise { (c : Class) → result ≡ Err (OpError.Raise c) → join_items sep.now (map character text.now) ≡ Err c }
{
    let each = sep.len();
    let step = each.saturating_add(1);
    let heavy = text.len().saturating_mul(step);
    if heavy > MOST.saturating_add(each) {
        return Err(OpError::Raise(Class::ProfileError));
    }
    let items = characters(alloc, text.as_str(), text.len())?;
    join_items(alloc, sep, items.as_slice())
}

// `join` of the keys of a dictionary, likewise.
#[tactic(auto, using(crate::proofs::JoinWeights::weight_rules))]
fn join_keys(alloc: Global, sep: &PyText, pairs: &[(Value, Value)]) -> Result<Value, OpError>
    ensures value { IfOk result (λ v. join_items sep.now (keys_of pairs.now) ≡ Ok v) }
    ensures raise { (c : Class) → result ≡ Err (OpError.Raise c) → join_items sep.now (keys_of pairs.now) ≡ Err c }
{
    let each = sep.len();
    let heavy = joined_weight_of_keys(each, pairs)?;
    if heavy > MOST.saturating_add(each) {
        return Err(OpError::Raise(Class::ProfileError));
    }
    let keys = keys_of(alloc, pairs)?;
    join_items(alloc, sep, keys.as_slice())
}

// `join` of a value's items.
fn join_value(alloc: Global, sep: &PyText, a: &Value) -> Result<Value, OpError>
    ensures value { IfOk result (λ v. join_value sep.now a.now ≡ Ok v) }
    ensures raise { (c : Class) → result ≡ Err (OpError.Raise c) → join_value sep.now a.now ≡ Err c }
{
    match a {
        Value::Text(text) => join_characters(alloc, sep, text),
        Value::Tuple(items) => join_items(alloc, sep, items.as_slice()),
        Value::List(items) => join_items(alloc, sep, items.as_slice()),
        Value::Dict(pairs) => join_keys(alloc, sep, pairs.as_slice()),
        _ => Err(OpError::Raise(Class::TypeError)),
    }
}

/// `join`.
pub(crate) fn join_of(alloc: Global, sep: &PyText, args: &[Value]) -> Result<Value, OpError>
    ensures value { IfOk result (λ v. join_of sep.now args.now ≡ Ok v) }
    ensures raise { (c : Class) → result ≡ Err (OpError.Raise c) → join_of sep.now args.now ≡ Err c }
{
    join_value(alloc, sep, only(args)?)
}

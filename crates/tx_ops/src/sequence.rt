// Sequences joined and repeated. Whether the result is within the limits is known before anything is built.
ghost use Rattle.std.specs.Prelude.{◌≡◌, ℕ, List, IfOk, Ok, Err};
ghost use Rattle.tx_base.specs.declared.class.Class.{Class};
ghost use Rattle.tx_text.specs.Limits.{UpTo};
ghost use Rattle.tx_values.specs.Limits.{made, most_weight};
ghost use Rattle.tx_text.specs.Text.{repeated};
ghost use Rattle.tx_ops.specs.Binary.{repetition};
ghost use Rattle.tx_ops.specs.Calls.Fits.{both_fit, both_items, copies_fit, list_of, repeated_items, tuple_of};
ghost use Rattle.tx_ops.specs.Calls.Sequences.{joined, repeated_by};
ghost use Rattle.tx_values.specs.Operand.{operand};

use crate::copies::{copies_of, copy_of_both};
use std::alloc::Global;
use tx_base::Class;
use tx_num::times_of;
use tx_text::{Long, PyText};
use tx_values::{Items, MOST_DEPTH, MOST_WEIGHT, OpError, Value, depth, weight};

// The greatest number of characters of a text.
const MOST_CHARACTERS: usize = MOST_WEIGHT as usize;

// The value of a text that was made within the limit, or ProfileError where it would be longer.
fn text_or_class(text: Result<PyText, Long>) -> Result<Value, OpError>
    ensures value { (t : List ℕ) → UpTo most_weight t text → IfOk result (λ v. made (Value.Text t) ≡ Ok v) }
    ensures raise { (t : List ℕ) → UpTo most_weight t text → (c : Class) → result ≡ Err (OpError.Raise c) → made (Value.Text t) ≡ Err c }
{
    match text {
        Ok(text) => Ok(Value::Text(text)),
        Err(Long::TooLong) => Err(OpError::Raise(Class::ProfileError)),
        Err(Long::NoMemory) => Err(OpError::NoMemory),
    }
}

// Whether a sequence that holds the items of both is within the limits.
fn both_fit(a: &Value, b: &Value) -> bool
    ensures { result ≡ both_fit a.now b.now }
{
    weight(a).saturating_add(weight(b)) <= MOST_WEIGHT
        && depth(a) <= MOST_DEPTH
        && depth(b) <= MOST_DEPTH
}

// Whether one that holds the items of this one so many times is.
fn copies_fit(a: &Value, times: usize) -> bool
    ensures { result ≡ copies_fit times a.now }
{
    if times == 0 {
        return true;
    }
    weight(a).saturating_mul(times as u64) <= MOST_WEIGHT && depth(a) <= MOST_DEPTH
}

// The items of both, which are those of the values.
fn both_items(
    alloc: Global,
    a: &Value,
    b: &Value,
    xs: &[Value],
    ys: &[Value],
) -> Result<Items, OpError>
    ensures value { IfOk result (λ items. both_items a.now b.now xs.now ys.now ≡ Ok items) }
    ensures raise { (c : Class) → result ≡ Err (OpError.Raise c) → both_items a.now b.now xs.now ys.now ≡ Err c }
{
    if both_fit(a, b) {
        Ok(copy_of_both(alloc, xs, ys)?)
    } else {
        Err(OpError::Raise(Class::ProfileError))
    }
}

// The items of a value, repeated by a factor.
fn repeated_items(alloc: Global, a: &Value, items: &[Value], factor: i128) -> Result<Items, OpError>
    ensures value { IfOk result (λ made. repeated_items a.now items.now factor ≡ Ok made) }
    ensures raise { (c : Class) → result ≡ Err (OpError.Raise c) → repeated_items a.now items.now factor ≡ Err c }
{
    let Some(times) = times_of(factor) else {
        return Err(OpError::Raise(Class::OverflowError));
    };
    if copies_fit(a, times) {
        Ok(copies_of(alloc, items, times)?)
    } else {
        Err(OpError::Raise(Class::ProfileError))
    }
}

// The tuple of the items of both.
fn joined_tuple(
    alloc: Global,
    a: &Value,
    b: &Value,
    xs: &[Value],
    ys: &[Value],
) -> Result<Value, OpError>
    ensures value { IfOk result (λ v. tuple_of (both_items a.now b.now xs.now ys.now) ≡ Ok v) }
    ensures raise { (c : Class) → result ≡ Err (OpError.Raise c) → tuple_of (both_items a.now b.now xs.now ys.now) ≡ Err c }
{
    Ok(Value::Tuple(both_items(alloc, a, b, xs, ys)?))
}

// The list of the items of both.
fn joined_list(
    alloc: Global,
    a: &Value,
    b: &Value,
    xs: &[Value],
    ys: &[Value],
) -> Result<Value, OpError>
    ensures value { IfOk result (λ v. list_of (both_items a.now b.now xs.now ys.now) ≡ Ok v) }
    ensures raise { (c : Class) → result ≡ Err (OpError.Raise c) → list_of (both_items a.now b.now xs.now ys.now) ≡ Err c }
{
    Ok(Value::List(both_items(alloc, a, b, xs, ys)?))
}

/// A sequence and another of its kind.
pub(crate) fn joined(alloc: Global, a: &Value, b: &Value) -> Result<Value, OpError>
    ensures value { IfOk result (λ v. joined (operand a.now) (operand b.now) ≡ Ok v) }
    ensures raise { (c : Class) → result ≡ Err (OpError.Raise c) → joined (operand a.now) (operand b.now) ≡ Err c }
{
    match (a, b) {
        (Value::Text(s), Value::Text(t)) => text_or_class(s.concat(t, MOST_CHARACTERS)),
        (Value::Tuple(xs), Value::Tuple(ys)) => {
            joined_tuple(alloc, a, b, xs.as_slice(), ys.as_slice())
        }
        (Value::List(xs), Value::List(ys)) => {
            joined_list(alloc, a, b, xs.as_slice(), ys.as_slice())
        }
        _ => Err(OpError::Raise(Class::TypeError)),
    }
}

// A text so many times, or OverflowError where the factor says nothing.
fn repeated_text(text: &PyText, times: Option<usize>) -> Result<Value, OpError>
    ensures value { IfOk result (λ v. repetition times (λ n. Value.Text (repeated n text.now)) ≡ Ok v) }
    ensures raise { (c : Class) → result ≡ Err (OpError.Raise c) → repetition times (λ n. Value.Text (repeated n text.now)) ≡ Err c }
{
    match times {
        Some(times) => text_or_class(text.repeat(times, MOST_CHARACTERS)),
        None => Err(OpError::Raise(Class::OverflowError)),
    }
}

// The tuple of the items of a value, repeated by a factor.
fn repeated_tuple(alloc: Global, a: &Value, items: &[Value], factor: i128) -> Result<Value, OpError>
    ensures value { IfOk result (λ v. tuple_of (repeated_items a.now items.now factor) ≡ Ok v) }
    ensures raise { (c : Class) → result ≡ Err (OpError.Raise c) → tuple_of (repeated_items a.now items.now factor) ≡ Err c }
{
    Ok(Value::Tuple(repeated_items(alloc, a, items, factor)?))
}

// The list of the items of a value, repeated by a factor.
fn repeated_list(alloc: Global, a: &Value, items: &[Value], factor: i128) -> Result<Value, OpError>
    ensures value { IfOk result (λ v. list_of (repeated_items a.now items.now factor) ≡ Ok v) }
    ensures raise { (c : Class) → result ≡ Err (OpError.Raise c) → list_of (repeated_items a.now items.now factor) ≡ Err c }
{
    Ok(Value::List(repeated_items(alloc, a, items, factor)?))
}

/// A sequence, repeated by a factor.
pub(crate) fn repeated_by(alloc: Global, a: &Value, factor: i128) -> Result<Value, OpError>
    ensures value { IfOk result (λ v. repeated_by (operand a.now) factor ≡ Ok v) }
    ensures raise { (c : Class) → result ≡ Err (OpError.Raise c) → repeated_by (operand a.now) factor ≡ Err c }
{
    match a {
        Value::Text(text) => repeated_text(text, times_of(factor)),
        Value::Tuple(items) => repeated_tuple(alloc, a, items.as_slice(), factor),
        Value::List(items) => repeated_list(alloc, a, items.as_slice(), factor),
        _ => Err(OpError::Raise(Class::TypeError)),
    }
}

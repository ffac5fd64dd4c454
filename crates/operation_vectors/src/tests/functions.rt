// Calls and their answers, a row each. The answers are CPython 3's, but where a row ends in ProfileError or a number is past 128
// bits, which are rules of the language alone.
mod builtins;
mod heavy;
mod methods;
mod reader;
mod walks;

use crate::tests::functions::reader::{cell, value_at};
use std::alloc::Global;
use tx_base::{Class, class_name};
use tx_text::NoMemory;
use tx_values::{Items, OpError, Value, equal};

// The number of a value's kind, so that `True` is told from `1`.
fn kind(a: &Value) -> u8 {
    match a {
        Value::Nil => 0,
        Value::Truth(_) => 1,
        Value::Int(_) => 2,
        Value::Text(_) => 3,
        Value::Tuple(_) => 4,
        Value::List(_) => 5,
        Value::Dict(_) => 6,
    }
}

// The items of a list, at the level that is looked at below a value.
fn items_in(a: &Value) -> &[Value] {
    match a {
        Value::Tuple(items) => items.as_slice(),
        Value::List(items) => items.as_slice(),
        _ => &[],
    }
}

// Whether two values are equal, and they and their items of one kind.
fn same(a: &Value, b: &Value) -> bool {
    let pairs = items_in(a).iter().zip(items_in(b));
    equal(a, b) && kind(a) == kind(b) && pairs.map(|(x, y)| kind(x) == kind(y)).all(|is| is)
}

/// Whether an answer is the one in a cell: a class, or a value.
pub(crate) fn is_due(
    alloc: Global,
    answer: Result<Value, OpError>,
    due: &str,
) -> Result<bool, NoMemory> {
    match answer {
        Ok(value) => Ok(same(&value, &reader::value_of(alloc, due)?)),
        Err(OpError::Raise(class)) => Ok(class_name(class) == due),
        Err(OpError::NoMemory) => Err(NoMemory),
    }
}

/// The same for a list of items.
pub(crate) fn are_due(
    alloc: Global,
    answer: Result<Items, OpError>,
    due: &str,
) -> Result<bool, NoMemory> {
    is_due(alloc, answer.map(|items| Value::List(items)), due)
}

/// The arguments in a cell, written as a list.
pub(crate) fn args_at(alloc: Global, row: &str, at: usize) -> Result<Items, NoMemory> {
    match value_at(alloc, row, at)? {
        Value::List(items) => Ok(items),
        _ => Ok(Items::new(alloc)),
    }
}

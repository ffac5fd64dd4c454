// One round of an operation over all pairs of neighbours. What is summed of each answer is its number, its length or its
// truth.
use crate::operation::Operation;
use std::alloc::Global;
use tx_methods::{builtin, method};
use tx_ops::{binary, compare, index};
use tx_text::{NoMemory, PyText};
use tx_tree::{BinaryOp, Builtin, CompareOp, Method};
use tx_values::{Items, OpError, Value};

/// Numbers are summed by their last 32 bits.
const LAST_BITS: u128 = 1 << 32;

/// Where `char_at` and `item_at` look.
const AT: i128 = -3;

/// What the operations take beside the values: an index, and the arguments of the methods.
#[derive(Drop)]
struct Given {
    at: Value,
    split: Items,
    replace: Items,
    find: Items,
}

// The texts as arguments.
fn arguments(alloc: Global, texts: &[&str]) -> Result<Items, NoMemory> {
    let mut args = Items::new(alloc);
    for at in 0..texts.len() {
        args.push(Value::Text(PyText::from_str(alloc, texts[at])?))?;
    }
    Ok(args)
}

fn all_given(alloc: Global) -> Result<Given, NoMemory> {
    Ok(Given {
        at: Value::Int(AT),
        split: arguments(alloc, &[" "])?,
        replace: arguments(alloc, &[" ", "--"])?,
        find: arguments(alloc, &["no"])?,
    })
}

// What is summed of an answer.
fn worth(answer: &Value) -> u64 {
    match answer {
        Value::Truth(true) => 1,
        Value::Int(n) => (n.unsigned_abs() % LAST_BITS) as u64,
        Value::Text(text) => text.len() as u64,
        Value::List(items) => items.len() as u64,
        _ => 0,
    }
}

fn of_binary(alloc: Global, op: BinaryOp, a: &Value, b: &Value) -> Result<u64, OpError> {
    Ok(worth(&binary(alloc, op, a, b)?))
}

fn of_compare(op: CompareOp, a: &Value, b: &Value) -> Result<u64, OpError> {
    Ok(u64::from(compare(op, a, b)?))
}

fn applied(
    alloc: Global,
    operation: Operation,
    a: &Value,
    b: &Value,
    given: &Given,
) -> Result<u64, OpError> {
    match operation {
        Operation::Numbers | Operation::Texts => Ok(worth(a)),
        Operation::NumberPairs | Operation::TextPairs => Ok(1),
        Operation::Lists => Ok(worth(&given.at)),
        Operation::Add => of_binary(alloc, BinaryOp::Add, a, b),
        Operation::Multiply => of_binary(alloc, BinaryOp::Mul, a, b),
        Operation::FloorDiv => of_binary(alloc, BinaryOp::FloorDiv, a, b),
        Operation::Less => of_compare(CompareOp::Less, a, b),
        Operation::Equal => of_compare(CompareOp::Equal, a, b),
        Operation::Join => of_binary(alloc, BinaryOp::Add, a, b),
        Operation::In => of_compare(CompareOp::In, b, a),
        Operation::CharAt | Operation::ItemAt => Ok(worth(&index(alloc, a, &given.at)?)),
        Operation::Split => Ok(worth(&method(alloc, Method::Split, a, &given.split)?)),
        Operation::Replace => Ok(worth(&method(alloc, Method::Replace, a, &given.replace)?)),
        Operation::Find => Ok(worth(&method(alloc, Method::Find, a, &given.find)?)),
        Operation::Numerals | Operation::Singles => Ok(of_first(a)),
        Operation::IntOf => of_builtin(alloc, Builtin::Int, a),
        Operation::StrOf => of_builtin(alloc, Builtin::Str, a),
    }
}

fn of_builtin(alloc: Global, function: Builtin, args: &Value) -> Result<u64, OpError> {
    match args {
        Value::List(items) => Ok(worth(&builtin(alloc, function, items)?)),
        _ => Ok(0),
    }
}

fn of_first(items: &Value) -> u64 {
    match items {
        Value::List(items) => items.get(0).map_or(0, worth),
        _ => 0,
    }
}

/// The sum of one round. An operation that raises ends it.
pub(crate) fn round(alloc: Global, operation: Operation, values: &[Value]) -> Result<u64, OpError> {
    let given = all_given(alloc)?;
    let mut sum = 0u64;
    for pair in values.windows(2) {
        let [a, b] = pair else {
            return Ok(sum);
        };
        sum = sum.wrapping_add(applied(alloc, operation, a, b, &given)?);
    }
    Ok(sum)
}

// Operations as a caller makes them. A table is a text with a case a row, `LEFT ; OPERATOR ; RIGHT ; ANSWER`; a value stands
// there as Python writes it, with a blank between its tokens, and `~5` is a text of five letters. The answer is a value, or
// the class that is raised. What is expected is what CPython 3.11 answers, but for the classes of the language's own:
// OverflowError past 128 bits, ProfileError past the limits of a value, at a text on the left of `%`, and at a slice of a
// dictionary.
mod items;
mod limits;
mod numbers;
mod pairs;
mod sequences;
mod slices;

use std::alloc::Global;
use std::process::Abort;
use std::test::Fail;
use tx_base::{Class, class_name};
use tx_num::print_int;
use tx_ops::{binary, compare, index, unary};
use tx_text::{NoMemory, PyText};
use tx_tree::{BinaryOp, CompareOp, UnaryOp};
use tx_values::{Items, OpError, Pairs, Value};

/// The cell at a place of a row; empty where it has fewer.
pub(crate) fn cell(row: &str, at: usize) -> &str {
    row.split(" ; ").nth(at).unwrap_or("")
}

/// A container whose bracket is open, and what it holds so far.
#[derive(Drop)]
struct Open {
    bracket: char,
    items: Items,
}

// The pairs of a list of keys and values in turn.
fn pairs_of(alloc: Global, items: Items) -> Result<Pairs, NoMemory> {
    let mut pairs = Pairs::new(alloc);
    let mut key = None;
    for item in items.into_vec() {
        match key.take() {
            None => key = Some(item),
            Some(key) => pairs.push((key, item))?,
        }
    }
    Ok(pairs)
}

fn closed(alloc: Global, open: Open) -> Result<Value, NoMemory> {
    match open.bracket {
        '(' => Ok(Value::Tuple(open.items)),
        '[' => Ok(Value::List(open.items)),
        _ => Ok(Value::Dict(pairs_of(alloc, open.items)?)),
    }
}

// Puts a value into the innermost open container.
fn put(open: &mut Vec<Open>, value: Value) -> Result<(), NoMemory> {
    match open.last_mut() {
        Some(container) => container.items.push(value),
        None => Ok(()),
    }
}

fn begin(alloc: Global, open: &mut Vec<Open>, bracket: char) -> Result<(), NoMemory> {
    let items = Items::new(alloc);
    open.push(Open { bracket, items })?;
    Ok(())
}

fn end(alloc: Global, open: &mut Vec<Open>) -> Result<(), NoMemory> {
    match open.pop() {
        Some(last) => put(open, closed(alloc, last)?),
        None => Ok(()),
    }
}

fn quoted(alloc: Global, text: &str) -> Result<Value, NoMemory> {
    Ok(Value::Text(PyText::from_str(alloc, text.trim_end_matches('\''))?))
}

// A text of so many letters.
fn letters(alloc: Global, count: &str) -> Result<Value, NoMemory> {
    let one = PyText::from_str(alloc, "x")?;
    match one.repeat(count.parse::<usize>().unwrap_or(0), usize::MAX) {
        Ok(text) => Ok(Value::Text(text)),
        Err(_) => Err(NoMemory),
    }
}

// A token that is no bracket: a name, a text, or else an integer.
fn scalar(alloc: Global, token: &str) -> Result<Value, NoMemory> {
    if let Some(text) = token.strip_prefix('\'') {
        return quoted(alloc, text);
    }
    if let Some(count) = token.strip_prefix('~') {
        return letters(alloc, count);
    }
    match token {
        "None" => Ok(Value::Nil),
        "True" => Ok(Value::Truth(true)),
        "False" => Ok(Value::Truth(false)),
        _ => Ok(Value::Int(token.parse::<i128>().unwrap_or(0))),
    }
}

fn read_token(alloc: Global, open: &mut Vec<Open>, token: &str) -> Result<(), NoMemory> {
    match token {
        "," | ":" => Ok(()),
        "(" => begin(alloc, open, '('),
        "[" => begin(alloc, open, '['),
        "{" => begin(alloc, open, '{'),
        ")" | "]" | "}" => end(alloc, open),
        _ => put(open, scalar(alloc, token)?),
    }
}

fn read_tokens(alloc: Global, open: &mut Vec<Open>, text: &str) -> Result<(), NoMemory> {
    for token in text.split(' ') {
        read_token(alloc, open, token)?;
    }
    Ok(())
}

/// A value as Python writes it, with a blank between its tokens. It is read as the one item of a list.
pub(crate) fn value_of(alloc: Global, text: &str) -> Result<Value, NoMemory> {
    let mut open = Vec::new(alloc);
    begin(alloc, &mut open, '[')?;
    read_tokens(alloc, &mut open, text)?;
    match open.pop() {
        Some(list) => Ok(list.items.into_vec().pop().unwrap_or(Value::Nil)),
        None => Ok(Value::Nil),
    }
}

/// Writes a value in the same notation.
#[cycle(write)]
fn write(alloc: Global, out: &mut PyText, value: &Value) -> Result<(), NoMemory> {
    match value {
        Value::Nil => out.push_str("None"),
        Value::Truth(true) => out.push_str("True"),
        Value::Truth(false) => out.push_str("False"),
        Value::Int(n) => out.push_str(print_int(alloc, *n)?.as_str()),
        Value::Text(text) => write_text(out, text),
        Value::Tuple(items) => {
            out.push_str("(")?;
            write_items(alloc, out, items.as_slice())?;
            out.push_str(if items.len() == 1 { " , )" } else { " )" })
        }
        Value::List(items) => {
            out.push_str("[")?;
            write_items(alloc, out, items.as_slice())?;
            out.push_str(" ]")
        }
        Value::Dict(pairs) => {
            out.push_str("{")?;
            write_pairs(alloc, out, pairs.as_slice())?;
            out.push_str(" }")
        }
    }
}

fn write_text(out: &mut PyText, text: &PyText) -> Result<(), NoMemory> {
    out.push_str("'")?;
    out.push_str(text.as_str())?;
    out.push_str("'")
}

// What stands ahead of an item.
fn write_ahead(out: &mut PyText, is_first: bool) -> Result<(), NoMemory> {
    if is_first {
        out.push_str(" ")
    } else {
        out.push_str(" , ")
    }
}

#[cycle(write)]
fn write_items(alloc: Global, out: &mut PyText, items: &[Value]) -> Result<(), NoMemory> {
    let mut is_first = true;
    for item in items {
        write_ahead(out, is_first)?;
        write(alloc, out, item)?;
        is_first = false;
    }
    Ok(())
}

#[cycle(write)]
fn write_pairs(alloc: Global, out: &mut PyText, pairs: &[(Value, Value)]) -> Result<(), NoMemory> {
    let mut is_first = true;
    for pair in pairs {
        write_ahead(out, is_first)?;
        write(alloc, out, &pair.0)?;
        out.push_str(" : ")?;
        write(alloc, out, &pair.1)?;
        is_first = false;
    }
    Ok(())
}

/// The answer of a call in the notation: a value, or a class.
pub(crate) fn written(alloc: Global, answer: Result<Value, OpError>) -> Result<PyText, NoMemory> {
    let mut out = PyText::new(alloc);
    match answer {
        Ok(value) => write(alloc, &mut out, &value)?,
        Err(OpError::Raise(class)) => out.push_str(class_name(class))?,
        Err(OpError::NoMemory) => return Err(NoMemory),
    }
    Ok(out)
}

fn binary_named(word: &str) -> Option<BinaryOp> {
    Some(match word {
        "+" => BinaryOp::Add,
        "-" => BinaryOp::Sub,
        "*" => BinaryOp::Mul,
        "//" => BinaryOp::FloorDiv,
        "%" => BinaryOp::Mod,
        _ => return None,
    })
}

fn compare_named(word: &str) -> Option<CompareOp> {
    Some(match word {
        "==" => CompareOp::Equal,
        "!=" => CompareOp::NotEqual,
        "<" => CompareOp::Less,
        "<=" => CompareOp::LessEqual,
        ">" => CompareOp::Greater,
        ">=" => CompareOp::GreaterEqual,
        "in" => CompareOp::In,
        "not_in" => CompareOp::NotIn,
        "is" => CompareOp::Is,
        "is_not" => CompareOp::IsNot,
        _ => return None,
    })
}

// An operator of one operand, or an index.
fn other_named(alloc: Global, word: &str, a: &Value, b: &Value) -> Result<Value, OpError> {
    match word {
        "neg" => unary(UnaryOp::Minus, a),
        "pos" => unary(UnaryOp::Plus, a),
        "[]" => index(alloc, a, b),
        _ => Err(OpError::Raise(Class::Exception)),
    }
}

/// What the operator of a word answers.
pub(crate) fn applied(alloc: Global, word: &str, a: &Value, b: &Value) -> Result<Value, OpError> {
    if let Some(op) = binary_named(word) {
        return binary(alloc, op, a, b);
    }
    match compare_named(word) {
        Some(op) => Ok(Value::Truth(compare(op, a, b)?)),
        None => other_named(alloc, word, a, b),
    }
}

// Whether a row holds.
fn holds(alloc: Global, row: &str) -> Result<bool, NoMemory> {
    let a = value_of(alloc, cell(row, 0))?;
    let b = value_of(alloc, cell(row, 2))?;
    let answer = written(alloc, applied(alloc, cell(row, 1), &a, &b))?;
    Ok(answer.as_str() == cell(row, 3))
}

/// Asserts that each row of a table holds, and that there are so many.
pub(crate) fn each_row_holds(
    rt: &impl Abort,
    alloc: Global,
    table: &str,
    rows: usize,
) -> Result<(), Fail> {
    let mut tried = 0usize;
    for row in table.lines().skip(1) {
        assert!(rt; holds(alloc, row)?, "{row}");
        tried = tried.wrapping_add(1);
    }
    assert!(rt; tried == rows, "{tried} rows");
    Ok(())
}

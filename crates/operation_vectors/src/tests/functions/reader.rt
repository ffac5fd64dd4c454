// Values as Python writes them, with a blank between their tokens: `{ 'a' : [ True , 2 ] }`, `( 1 , )`. In a text `␣` stands for a
// blank, and the token `@c7` for a text of seven times the character `c`.
use std::alloc::Global;
use tx_text::{Long, NoMemory, PyText};
use tx_values::{Items, Pairs, Value};

/// The cell at a place of a row; empty where it has fewer.
pub(crate) fn cell(row: &str, at: usize) -> &str {
    row.split(" ; ").nth(at).unwrap_or("")
}

// A container whose bracket is open, and what it holds so far.
#[derive(Drop)]
struct Open {
    bracket: char,
    items: Items,
}

// The pairs of a list of keys and values in turn.
fn pairs_of(alloc: Global, items: Items) -> Result<Pairs, NoMemory> {
    let mut pairs = Pairs::new(alloc);
    let mut key = None;
    for item in items.into_vec() {
        match key.take() {
            None => key = Some(item),
            Some(key) => pairs.push((key, item))?,
        }
    }
    Ok(pairs)
}

fn closed(alloc: Global, open: Open) -> Result<Value, NoMemory> {
    match open.bracket {
        '(' => Ok(Value::Tuple(open.items)),
        '[' => Ok(Value::List(open.items)),
        _ => Ok(Value::Dict(pairs_of(alloc, open.items)?)),
    }
}

// Puts a value into the innermost open container.
fn put(open: &mut Vec<Open>, value: Value) -> Result<(), NoMemory> {
    match open.last_mut() {
        Some(container) => container.items.push(value),
        None => Ok(()),
    }
}

fn begin(alloc: Global, open: &mut Vec<Open>, bracket: char) -> Result<(), NoMemory> {
    let items = Items::new(alloc);
    open.push(Open { bracket, items })?;
    Ok(())
}

fn end(alloc: Global, open: &mut Vec<Open>) -> Result<(), NoMemory> {
    match open.pop() {
        Some(last) => put(open, closed(alloc, last)?),
        None => Ok(()),
    }
}

// A character as it is meant.
fn meant(c: char) -> char {
    if c == '␣' { ' ' } else { c }
}

// A text in quotes.
fn quoted(alloc: Global, text: &str) -> Result<Value, NoMemory> {
    let mut read = PyText::new(alloc);
    for c in text.trim_end_matches('\'').chars() {
        read.push(meant(c))?;
    }
    Ok(Value::Text(read))
}

// A text of a character so many times: `c7`.
fn repeated(alloc: Global, token: &str) -> Result<Value, NoMemory> {
    let mut rest = token.chars();
    let mut one = PyText::new(alloc);
    if let Some(c) = rest.next() {
        one.push(meant(c))?;
    }
    let times = rest.as_str().parse::<usize>().unwrap_or(0);
    match one.repeat(times, times) {
        Ok(text) => Ok(Value::Text(text)),
        Err(Long::TooLong) => Ok(Value::Nil),
        Err(Long::NoMemory) => Err(NoMemory),
    }
}

fn integer(token: &str) -> Value {
    Value::Int(token.parse::<i128>().unwrap_or(0))
}

// A token that is no bracket: a name, a text, or else an integer.
fn scalar(alloc: Global, token: &str) -> Result<Value, NoMemory> {
    match token {
        "None" => return Ok(Value::Nil),
        "True" => return Ok(Value::Truth(true)),
        "False" => return Ok(Value::Truth(false)),
        _ => {}
    }
    if let Some(text) = token.strip_prefix('\'') {
        return quoted(alloc, text);
    }
    match token.strip_prefix('@') {
        Some(times) => repeated(alloc, times),
        None => Ok(integer(token)),
    }
}

fn read_token(alloc: Global, open: &mut Vec<Open>, token: &str) -> Result<(), NoMemory> {
    match token {
        "," | ":" => Ok(()),
        "(" => begin(alloc, open, '('),
        "[" => begin(alloc, open, '['),
        "{" => begin(alloc, open, '{'),
        ")" | "]" | "}" => end(alloc, open),
        _ => put(open, scalar(alloc, token)?),
    }
}

fn read_tokens(alloc: Global, open: &mut Vec<Open>, text: &str) -> Result<(), NoMemory> {
    for token in text.split(' ') {
        read_token(alloc, open, token)?;
    }
    Ok(())
}

/// A value as it is written. It is read as the one item of a list.
pub(crate) fn value_of(alloc: Global, text: &str) -> Result<Value, NoMemory> {
    let mut open = Vec::new(alloc);
    begin(alloc, &mut open, '[')?;
    read_tokens(alloc, &mut open, text)?;
    match open.pop() {
        Some(list) => Ok(list.items.into_vec().pop().unwrap_or(Value::Nil)),
        None => Ok(Value::Nil),
    }
}

/// The value at a place of a row.
pub(crate) fn value_at(alloc: Global, row: &str, at: usize) -> Result<Value, NoMemory> {
    value_of(alloc, cell(row, at))
}

// Values as a caller makes them. A value stands in a row as Python writes it, with a blank between its tokens. What is
// expected is what CPython 3 answers, but for weight, depth and their limits, which are rules of the language alone.
use std::alloc::Global;
use std::process::Abort;
use tx_text::PyText;
use tx_values::{Items, Pairs, Value};

/// The cell at a place of a row; empty where it has fewer.
pub(crate) fn cell(row: &str, at: usize) -> &str {
    row.split(" ; ").nth(at).unwrap_or("")
}

// The pairs of a list of keys and values in turn.
fn pairs_of(rt: &impl Abort, alloc: Global, items: Items) -> Pairs {
    let mut pairs = Pairs::new(alloc);
    let mut key = None;
    for item in items.into_vec() {
        match key.take() {
            None => key = Some(item),
            Some(key) => pairs.push((key, item)).expect(rt, "memory"),
        }
    }
    pairs
}

// What a bracket closes.
fn closed(rt: &impl Abort, alloc: Global, items: Items, bracket: &str) -> Value {
    match bracket {
        ")" => Value::Tuple(items),
        "]" => Value::List(items),
        _ => Value::Dict(pairs_of(rt, alloc, items)),
    }
}

fn begin(rt: &impl Abort, alloc: Global, open: &mut Vec<Items>) {
    open.push(Items::new(alloc)).expect(rt, "memory");
}

// The items behind the last open bracket.
fn last(alloc: Global, open: &mut Vec<Items>) -> Items {
    open.pop().unwrap_or(Items::new(alloc))
}

// Puts a value into the innermost open container.
fn put(rt: &impl Abort, open: &mut Vec<Items>, value: Value) {
    if let Some(items) = open.last_mut() {
        items.push(value).expect(rt, "memory");
    }
}

fn quoted(rt: &impl Abort, alloc: Global, text: &str) -> Value {
    Value::Text(PyText::from_str(alloc, text.trim_end_matches('\'')).expect(rt, "memory"))
}

// A token that is no bracket: a name, a text in quotes, or else an integer.
fn scalar(rt: &impl Abort, alloc: Global, token: &str) -> Value {
    match token {
        "None" => Value::Nil,
        "True" => Value::Truth(true),
        "False" => Value::Truth(false),
        _ => match token.strip_prefix('\'') {
            Some(text) => quoted(rt, alloc, text),
            None => Value::Int(token.parse::<i128>().unwrap_or(0)),
        },
    }
}

fn read_token(rt: &impl Abort, alloc: Global, open: &mut Vec<Items>, token: &str) {
    match token {
        "," | ":" => {}
        "(" | "[" | "{" => begin(rt, alloc, open),
        ")" | "]" | "}" => {
            let items = last(alloc, open);
            put(rt, open, closed(rt, alloc, items, token));
        }
        _ => put(rt, open, scalar(rt, alloc, token)),
    }
}

/// A value as Python writes it, with a blank between its tokens: `{ 'a' : [ True , 2 ] }`, `( 1 , )`. It is read as the one
/// item of a list.
pub(crate) fn value_of(rt: &impl Abort, alloc: Global, text: &str) -> Value {
    let mut open = Vec::new(alloc);
    begin(rt, alloc, &mut open);
    for token in text.split(' ') {
        read_token(rt, alloc, &mut open, token);
    }
    last(alloc, &mut open)
        .into_vec()
        .pop()
        .unwrap_or(Value::Nil)
}

/// The value at a place of a row.
pub(crate) fn value_at(rt: &impl Abort, alloc: Global, row: &str, at: usize) -> Value {
    value_of(rt, alloc, cell(row, at))
}

// The value or the class that a call is to give, as a row says it.
use crate::tests::read::block_of;
use std::alloc::Global;
use tx_base::class_name;
use tx_tree::{Arg, Block, Expr, Pair};
use tx_values::{OpError, Value};

// Whether `-a` is the number.
fn is_opposite(a: &Expr, n: i128) -> bool {
    match a {
        Expr::Int { value, .. } => n.checked_add(*value) == Some(0),
        _ => false,
    }
}

#[cycle(is_value)]
fn are_values(trees: &[Expr], values: &[Value]) -> bool {
    let mut at = 0usize;
    for tree in trees {
        match values.get(at) {
            Some(value) => {
                if !is_value(tree, value) {
                    return false;
                }
            }
            None => return false,
        }
        at = at.wrapping_add(1);
    }
    values.len() == at
}

#[cycle(is_value)]
fn are_pairs(trees: &[Pair], values: &[(Value, Value)]) -> bool {
    let mut at = 0usize;
    for tree in trees {
        match values.get(at) {
            Some(pair) => {
                if !is_value(&tree.key, &pair.0) || !is_value(&tree.value, &pair.1) {
                    return false;
                }
            }
            None => return false,
        }
        at = at.wrapping_add(1);
    }
    values.len() == at
}

// Whether a display of literals is the value, each part of its kind and at its place.
#[cycle(is_value)]
fn is_value(tree: &Expr, value: &Value) -> bool {
    match (tree, value) {
        (Expr::Nil { .. }, Value::Nil) => true,
        (Expr::Truth { value: a, .. }, Value::Truth(b)) => *a == *b,
        (Expr::Int { value: a, .. }, Value::Int(b)) => *a == *b,
        (Expr::Unary { operand, .. }, Value::Int(b)) => is_opposite(operand.get(), *b),
        (Expr::Text { value: a, .. }, Value::Text(b)) => a.as_str() == b.as_str(),
        (Expr::Tuple { items, .. }, Value::Tuple(values)) => are_values(
            items.as_slice(),
            values.as_slice(),
        ),
        (Expr::List { items, .. }, Value::List(values)) => are_values(
            items.as_slice(),
            values.as_slice(),
        ),
        (Expr::Dict { pairs, .. }, Value::Dict(values)) => are_pairs(
            pairs.as_slice(),
            values.as_slice(),
        ),
        _ => false,
    }
}

// Whether the first argument of a chain is a lambda that gives the value.
fn gives(block: &Block, value: &Value) -> bool {
    if let Block::Alone(chain) = block {
        if let Some(link) = chain.links.get(0) {
            if let Some(Arg::Lambda { body, .. }) = link.args.items.get(0) {
                return is_value(body, value);
            }
        }
    }
    false
}

fn is_written(alloc: Global, value: &Value, due: &str) -> bool {
    let mut lambda = tx_text::PyText::new(alloc);
    if lambda.push_str("lambda: ").is_err() || lambda.push_str(due).is_err() {
        return false;
    }
    match block_of(alloc, lambda.as_str()) {
        Some(block) => gives(&block, value),
        None => false,
    }
}

/// Whether a call gave this value, or raised the class of this name.
pub(crate) fn is_due(alloc: Global, answer: &Result<Value, OpError>, due: &str) -> bool {
    match answer {
        Ok(value) => is_written(alloc, value, due),
        Err(OpError::Raise(class)) => class_name(*class) == due,
        Err(OpError::NoMemory) => false,
    }
}

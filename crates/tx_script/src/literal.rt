// The first accumulator of an aggregate.
ghost use Rattle.std.specs.Prelude.{◌≡◌, ℤ, map, IfOk};
ghost use Rattle.tx_tree.specs.Tree.{tree_of, trees};
ghost use Rattle.tx_script.specs.Forms as forms;

use crate::form::copy_text;
use std::alloc::Global;
use tx_text::NoMemory;
use tx_tree::{Expr, UnaryOp};
use tx_values::{Items, Value};

// An integer literal, or what a minus makes of it.
fn integer(n: i128) -> Option<Value>
    ensures { result ≡ forms.integer n }
{
    if n == i128::MIN {
        None
    } else {
        Some(Value::Int(n))
    }
}

fn number_in(a: &Expr) -> Option<i128>
    ensures { result ≡ forms.number_of (tree_of a.now) }
{
    match a {
        Expr::Int { value, .. } => Some(*value),
        _ => None,
    }
}

fn negative(op: UnaryOp, operand: &Expr) -> Option<Value>
    ensures { result ≡ forms.negative op (tree_of operand.now) }
{
    match op {
        UnaryOp::Minus => {
            let Some(n) = number_in(operand) else {
                return None;
            };
            match n.checked_neg() {
                Some(m) => integer(m),
                None => None,
            }
        }
        UnaryOp::Plus => None,
    }
}

fn tuple_of(items: Option<Items>) -> Option<Value>
    ensures { result ≡ forms.tuple_of items }
{
    match items {
        Some(items) => Some(Value::Tuple(items)),
        None => None,
    }
}

fn list_of(items: Option<Items>) -> Option<Value>
    ensures { result ≡ forms.list_of items }
{
    match items {
        Some(items) => Some(Value::List(items)),
        None => None,
    }
}

/// The value that an expression writes as it stands, with no operation but a minus ahead of an integer.
#[cycle(literal)]
pub(crate) fn literal(alloc: Global, a: &Expr) -> Result<Option<Value>, NoMemory>
    ensures { IfOk result (λ o. o ≡ forms.literal (tree_of a.now)) }
{
    match a {
        Expr::Nil { .. } => Ok(Some(Value::Nil)),
        Expr::Truth { value, .. } => Ok(Some(Value::Truth(*value))),
        Expr::Int { value, .. } => Ok(integer(*value)),
        Expr::Unary { op, operand, .. } => Ok(negative(*op, operand.get())),
        Expr::Text { value, .. } => Ok(Some(Value::Text(copy_text(value)?))),
        Expr::Tuple { items, .. } => Ok(tuple_of(literals(alloc, items.as_slice())?)),
        Expr::List { items, .. } => Ok(list_of(literals(alloc, items.as_slice())?)),
        _ => Ok(None),
    }
}

#[cycle(literal)]
fn literals(alloc: Global, items: &[Expr]) -> Result<Option<Items>, NoMemory>
    ensures { IfOk result (λ o. o ≡ forms.literals (trees (map tree_of items.now))) }
{
    let mut done = Items::new(alloc);
    for item in items {
        let Some(value) = literal(alloc, item)? else {
            return Ok(None);
        };
        done.push(value)?;
    }
    Ok(Some(done))
}

// The slice of a sequence.
ghost use Rattle.std.specs.Prelude.{◌≡◌, IfOk, Ok, Err, option_map};
ghost use Rattle.tx_base.specs.declared.class.Class.{Class};
ghost use Rattle.tx_ops.specs.Slice.{bound_of, part_between, slice_of};

use std::alloc::Global;
use tx_base::Class;
use tx_num::{slice_start, slice_stop};
use tx_text::PyText;
use tx_values::{Items, OpError, Value, copy_items};

/// `base[from:to]` (Language Reference, "Slicings"), where a bound may be absent: `"abc"[1:9]` is `"bc"`, `[1, 2][-1:]` is
/// `[2]`, and `None[0:1]` a TypeError.
pub fn slice(
    alloc: Global,
    base: &Value,
    from: Option<&Value>,
    to: Option<&Value>,
) -> Result<Value, OpError>
    ensures value { IfOk result (λ v. slice_of base.now (option_map (λ a. a.now) from.entry) (option_map (λ a. a.now) to.entry) ≡ Ok v) }
    ensures raise { (c : Class) → result ≡ Err (OpError.Raise c) → slice_of base.now (option_map (λ a. a.now) from.entry) (option_map (λ a. a.now) to.entry) ≡ Err c }
{
    match base {
        Value::Text(text) => Ok(Value::Text(text_between(text, from, to)?)),
        Value::Tuple(items) => Ok(Value::Tuple(items_between(alloc, items.as_slice(), from, to)?)),
        Value::List(items) => Ok(Value::List(items_between(alloc, items.as_slice(), from, to)?)),
        Value::Dict(_) => Err(OpError::Raise(Class::ProfileError)),
        _ => Err(OpError::Raise(Class::TypeError)),
    }
}

// The number of a bound, or none where the bound is absent or None.
fn bound_of(bound: Option<&Value>) -> Result<Option<i128>, OpError>
    ensures value { IfOk result (λ n. bound_of (option_map (λ a. a.now) bound.entry) ≡ Ok n) }
    ensures raise { (c : Class) → result ≡ Err (OpError.Raise c) → bound_of (option_map (λ a. a.now) bound.entry) ≡ Err c }
{
    match bound {
        None => Ok(None),
        Some(Value::Nil) => Ok(None),
        Some(Value::Truth(b)) => Ok(Some(i128::from(*b))),
        Some(Value::Int(n)) => Ok(Some(*n)),
        Some(_) => Err(OpError::Raise(Class::TypeError)),
    }
}

// The part of a text between two bounds.
fn text_between(text: &PyText, from: Option<&Value>, to: Option<&Value>) -> Result<PyText, OpError>
    ensures value { IfOk result (λ t. part_between text.now (option_map (λ a. a.now) from.entry) (option_map (λ a. a.now) to.entry) ≡ Ok t) }
    ensures raise { (c : Class) → result ≡ Err (OpError.Raise c) → part_between text.now (option_map (λ a. a.now) from.entry) (option_map (λ a. a.now) to.entry) ≡ Err c }
{
    let start = slice_start(text.len(), bound_of(from)?);
    let stop = slice_stop(text.len(), bound_of(to)?);
    Ok(text.slice(start, stop)?)
}

// The part of a list between two bounds.
fn items_between(
    alloc: Global,
    items: &[Value],
    from: Option<&Value>,
    to: Option<&Value>,
) -> Result<Items, OpError>
    ensures value { IfOk result (λ part. part_between items.now (option_map (λ a. a.now) from.entry) (option_map (λ a. a.now) to.entry) ≡ Ok part) }
    ensures raise { (c : Class) → result ≡ Err (OpError.Raise c) → part_between items.now (option_map (λ a. a.now) from.entry) (option_map (λ a. a.now) to.entry) ≡ Err c }
{
    let start = slice_start(items.len(), bound_of(from)?);
    let stop = slice_stop(items.len(), bound_of(to)?);
    if start < stop {
        Ok(copy_items(alloc, &items[start..stop])?)
    } else {
        Ok(Items::new(alloc))
    }
}

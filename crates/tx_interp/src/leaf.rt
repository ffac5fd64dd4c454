// What the interpreter makes of values.
ghost use Rattle.std.specs.Prelude.{◌≡◌, [], IfOk, Ok, Err};
ghost use Rattle.tx_base.specs.declared.class.Class.{Class};
ghost use Rattle.tx_values.specs.declared.value.Value.{out-Value};
ghost use Rattle.tx_values.specs.declared.value.Value.TheVariants as v;
ghost use Rattle.tx_values.specs.Limits.{made};
ghost use Rattle.tx_methods.specs.Methods.{has_views_of};
ghost use Rattle.tx_meaning.specs.Meaning.{is_list};

use std::alloc::Global;
use tx_text::{NoMemory, PyText};
use tx_values::{Items, OpError, Value, copy, made};

/// A value within the limits.
pub(crate) fn finished(a: Value) -> Result<Value, OpError>
    ensures value { IfOk result (λ v. made a ≡ Ok v) }
    ensures raise { (c : Class) → result ≡ Err (OpError.Raise c) → made a ≡ Err c }
{
    match made(a) {
        Ok(value) => Ok(value),
        Err(class) => Err(OpError::Raise(class)),
    }
}

/// Whether a value is a list.
pub(crate) fn is_list(a: &Value) -> bool
    ensures { result ≡ is_list (out-Value a.now) }
{
    matches!(a, Value::List(_))
}

/// Whether a value has the views of a dictionary.
pub(crate) fn has_views(a: &Value) -> bool
    ensures { result ≡ has_views_of a.now }
{
    matches!(a, Value::Dict(_))
}

/// A list without items, with room for so many.
pub(crate) fn room_for(alloc: Global, count: usize) -> Result<Items, NoMemory>
    ensures { IfOk result (λ items. items ≡ []) }
{
    Ok(Items::from_vec(Vec::with_capacity(alloc, count)?))
}

// The same text, made anew.
fn copy_text(alloc: Global, text: &PyText) -> Result<PyText, NoMemory>
    ensures { IfOk result (λ t. t ≡ text.now) }
{
    PyText::from_str(alloc, text.as_str())
}

/// The same value, made anew. A text is not looked through for it.
pub(crate) fn copied(alloc: Global, a: &Value) -> Result<Value, NoMemory>
    ensures { IfOk result (λ c. c ≡ a.now) }
{
    match a {
        Value::Text(text) => Ok(Value::Text(copy_text(alloc, text)?)),
        _ => copy(alloc, a),
    }
}

/// The value of a text literal.
pub(crate) fn literal(alloc: Global, text: &PyText) -> Result<Value, OpError>
    ensures value { IfOk result (λ x. x ≡ v.Text text.now) }
    ensures raise { (c : Class) → result ≡ Err (OpError.Raise c) → ⊥ }
{
    Ok(Value::Text(copy_text(alloc, text)?))
}

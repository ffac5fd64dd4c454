// The methods of dictionaries.
ghost use Rattle.std.specs.Prelude.{◌≡◌, Ok, Err, IfOk, option_copied, unwrap_or};
ghost use Rattle.tx_base.specs.declared.class.Class.{Class};
ghost use Rattle.tx_values.specs.declared.value.Value.TheVariants as value;
ghost use Rattle.tx_tree.specs.declared.function.Method.TheVariants as method;
ghost use Rattle.tx_methods.specs.DictMethods.{dict_method};

use crate::arguments::one_or_two;
use std::alloc::Global;
use tx_base::Class;
use tx_text::NoMemory;
use tx_tree::Method;
use tx_values::{OpError, Value, copy, hashable, value_under};

// A value, made anew, or None.
fn copy_or_none(alloc: Global, a: Option<&Value>) -> Result<Value, NoMemory>
    ensures { IfOk result (λ v. v ≡ unwrap_or (option_copied a.entry) value.Nil) }
{
    match a {
        Some(a) => copy(alloc, a),
        None => Ok(Value::Nil),
    }
}

// `get`.
fn get_of(alloc: Global, pairs: &[(Value, Value)], args: &[Value]) -> Result<Value, OpError>
    ensures value { IfOk result (λ v. dict_method method.Get pairs.now args.now ≡ Ok v) }
    ensures raise { (c : Class) → result ≡ Err (OpError.Raise c) → dict_method method.Get pairs.now args.now ≡ Err c }
{
    let (key, other) = one_or_two(args)?;
    if !hashable(key) {
        return Err(OpError::Raise(Class::TypeError));
    }
    match value_under(pairs, key) {
        Some(found) => Ok(copy(alloc, found)?),
        None => Ok(copy_or_none(alloc, other)?),
    }
}

/// What a method of a dictionary gives, but for the views.
pub(crate) fn dict_method(
    alloc: Global,
    m: Method,
    pairs: &[(Value, Value)],
    args: &[Value],
) -> Result<Value, OpError>
    ensures value { IfOk result (λ v. dict_method m pairs.now args.now ≡ Ok v) }
    ensures raise { (c : Class) → result ≡ Err (OpError.Raise c) → dict_method m pairs.now args.now ≡ Err c }
{
    match m {
        Method::Get => get_of(alloc, pairs, args),
        _ => Err(OpError::Raise(Class::AttributeError)),
    }
}

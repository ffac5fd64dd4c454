// Methods by the kind of the value that they are of.
ghost use Rattle.std.specs.Prelude.{◌≡◌, Ok, Err, IfOk};
ghost use Rattle.tx_base.specs.declared.class.Class.{Class};
ghost use Rattle.tx_methods.specs.Methods.{dictionaries_have, has_method_of, method_of, sequences_have, texts_have};

use crate::dictionaries::dict_method;
use crate::sequences::sequence_method;
use crate::texts::text_method;
use std::alloc::Global;
use tx_base::Class;
use tx_tree::Method;
use tx_values::{Items, OpError, Value};

fn texts_have(m: Method) -> bool
    ensures { result ≡ texts_have m }
{
    !matches!(m, Method::Get)
}

fn sequences_have(m: Method) -> bool
    ensures { result ≡ sequences_have m }
{
    matches!(m, Method::Count | Method::Index)
}

fn dictionaries_have(m: Method) -> bool
    ensures { result ≡ dictionaries_have m }
{
    matches!(m, Method::Get)
}

/// Whether a value of this kind has the method: texts have all but `get`, tuples and lists `count` and `index`, dictionaries
/// `get`. The views of a dictionary are walks.
pub fn has_method(m: Method, on: &Value) -> bool
    ensures { result ≡ has_method_of m on.now }
{
    match on {
        Value::Text(_) => texts_have(m),
        Value::Tuple(_) => sequences_have(m),
        Value::List(_) => sequences_have(m),
        Value::Dict(_) => dictionaries_have(m),
        _ => false,
    }
}

/// What a method gives (`docs/LANGUAGE.md`, "Functions and methods"): `"a,,b".split(",")` is `["a", "", "b"]`. Of a kind
/// that lacks it that is AttributeError, and for a number of arguments that it does not take TypeError.
pub fn method(alloc: Global, m: Method, on: &Value, args: &Items) -> Result<Value, OpError>
    ensures value { IfOk result (λ v. method_of m on.now args.now ≡ Ok v) }
    ensures raise { (c : Class) → result ≡ Err (OpError.Raise c) → method_of m on.now args.now ≡ Err c }
{
    let args = args.as_slice();
    match on {
        Value::Text(text) => text_method(alloc, m, text, args),
        Value::Tuple(items) => sequence_method(m, items.as_slice(), args),
        Value::List(items) => sequence_method(m, items.as_slice(), args),
        Value::Dict(pairs) => dict_method(alloc, m, pairs.as_slice(), args),
        _ => Err(OpError::Raise(Class::AttributeError)),
    }
}

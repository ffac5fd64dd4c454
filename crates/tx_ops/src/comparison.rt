// The operators of comparisons. None of them takes memory.
ghost use Rattle.std.specs.Prelude.{◌≡◌, IfOk, Ok, Err};
ghost use Rattle.std.specs.List.{list_any};
ghost use Rattle.tx_base.specs.declared.class.Class.{Class};
ghost use Rattle.tx_values.specs.Equality.{equal};
ghost use Rattle.tx_ops.specs.Compare.{compare_of, holds, is_key, is_nothing, is_part, opposite};
ghost use Rattle.tx_values.specs.Operand.{operand};

use tx_base::Class;
use tx_text::PyText;
use tx_tree::CompareOp;
use tx_values::{OpError, Value, equal, hashable, less};

/// `a op b` for the operators of comparisons (Language Reference, "Comparisons"): `1 == True` is true, `(1, "a") < (1, 2)` is
/// a TypeError, and `[] in {}` is one too. For `is` and `is not` the right operand is None. A key of a dictionary is looked
/// for from the front.
pub fn compare(op: CompareOp, a: &Value, b: &Value) -> Result<bool, OpError>
    ensures value { IfOk result (λ v. compare_of op a.now b.now ≡ Ok v) }
    ensures raise { (c : Class) → result ≡ Err (OpError.Raise c) → compare_of op a.now b.now ≡ Err c }
    ensures memory { result ≡ Err OpError.NoMemory → ⊥ }
{
    match compared(op, a, b) {
        Ok(answer) => Ok(answer),
        Err(class) => Err(OpError::Raise(class)),
    }
}

// The same, with nothing but a class for an error.
fn compared(op: CompareOp, a: &Value, b: &Value) -> Result<bool, Class>
    ensures { result ≡ compare_of op a.now b.now }
{
    match op {
        CompareOp::Equal => Ok(equal(a, b)),
        CompareOp::NotEqual => Ok(!equal(a, b)),
        CompareOp::Less => less(a, b),
        CompareOp::LessEqual => opposite(less(b, a)),
        CompareOp::Greater => less(b, a),
        CompareOp::GreaterEqual => opposite(less(a, b)),
        CompareOp::In => holds(b, a),
        CompareOp::NotIn => opposite(holds(b, a)),
        CompareOp::Is => Ok(is_nothing(a)),
        CompareOp::IsNot => Ok(!is_nothing(a)),
    }
}

fn opposite(answer: Result<bool, Class>) -> Result<bool, Class>
    ensures { result ≡ opposite answer }
{
    match answer {
        Ok(yes) => Ok(!yes),
        Err(class) => Err(class),
    }
}

fn is_nothing(a: &Value) -> bool
    ensures { result ≡ is_nothing (operand a.now) }
{
    match a {
        Value::Nil => true,
        _ => false,
    }
}

// Whether a value is in another.
fn holds(whole: &Value, a: &Value) -> Result<bool, Class>
    ensures { result ≡ holds (operand whole.now) a.now }
{
    match whole {
        Value::Text(text) => is_part(a, text),
        Value::Tuple(items) => Ok(is_among(items.as_slice(), a)),
        Value::List(items) => Ok(is_among(items.as_slice(), a)),
        Value::Dict(pairs) => is_key(a, pairs.as_slice()),
        _ => Err(Class::TypeError),
    }
}

fn is_part(a: &Value, whole: &PyText) -> Result<bool, Class>
    ensures { result ≡ is_part (operand a.now) whole.now }
{
    match a {
        Value::Text(part) => Ok(whole.find(part).is_some()),
        _ => Err(Class::TypeError),
    }
}

fn is_among(items: &[Value], a: &Value) -> bool
    ensures { result ≡ list_any (equal a.now) items.now }
{
    for item in items {
        if equal(a, item) {
            return true;
        }
    }
    false
}

fn is_key(a: &Value, pairs: &[(Value, Value)]) -> Result<bool, Class>
    ensures { result ≡ is_key a.now pairs.now }
{
    if !hashable(a) {
        return Err(Class::TypeError);
    }
    for pair in pairs {
        if equal(a, &pair.0) {
            return Ok(true);
        }
    }
    Ok(false)
}

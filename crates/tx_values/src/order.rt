// Order.
ghost use Rattle.std.specs.Prelude.{◌≡◌, Err};
ghost use Rattle.tx_values.specs.Order.{less};
ghost use Rattle.tx_values.specs.Calls.Lists.{less_all};

use crate::{Value, equal};
use tx_base::Class;

/// Whether a value comes before another, as Python's `<`: numbers among each other, texts by code points, tuples with
/// tuples and lists with lists by their first unequal items and then by their lengths. All else is TypeError, as
/// `(1, "a") < (1, 2)`.
#[tactic(auto, using(crate::proofs::OrderLemmas::less_laws, crate::proofs::OrderLemmas::less_kinds))]
#[cycle(less)]
pub fn less(a: &Value, b: &Value) -> Result<bool, Class>
    ensures value { result ≡ less a.now b.now }
    ensures raise { (class : Class) → result ≡ Err class → class ≡ Class.TypeError }
{
    match a {
        Value::Truth(x) => match b {
            Value::Truth(y) => Ok(i128::from(*x) < i128::from(*y)),
            Value::Int(n) => Ok(i128::from(*x) < *n),
            _ => Err(Class::TypeError),
        },
        Value::Int(m) => match b {
            Value::Truth(y) => Ok(*m < i128::from(*y)),
            Value::Int(n) => Ok(*m < *n),
            _ => Err(Class::TypeError),
        },
        Value::Text(s) => match b {
            Value::Text(t) => Ok(s.less(t)),
            _ => Err(Class::TypeError),
        },
        Value::Tuple(xs) => match b {
            Value::Tuple(ys) => less_all(xs.as_slice(), ys.as_slice()),
            _ => Err(Class::TypeError),
        },
        Value::List(xs) => match b {
            Value::List(ys) => less_all(xs.as_slice(), ys.as_slice()),
            _ => Err(Class::TypeError),
        },
        Value::Nil | Value::Dict(_) => Err(Class::TypeError),
    }
}

#[tactic(auto, using(crate::proofs::OrderLemmas::less_laws))]
#[cycle(less)]
fn less_all(xs: &[Value], ys: &[Value]) -> Result<bool, Class>
    ensures value { result ≡ less_all xs.now ys.now }
    ensures raise { (class : Class) → result ≡ Err class → class ≡ Class.TypeError }
{
    for i in 0..xs.len() {
        if i >= ys.len() {
            return Ok(false);
        }
        if !equal(&xs[i], &ys[i]) {
            return less(&xs[i], &ys[i]);
        }
    }
    Ok(xs.len() < ys.len())
}

// Equality and truth.
ghost use Rattle.std.specs.Prelude.{◌≡◌};
ghost use Rattle.tx_values.specs.Equality.{equal, same_text, truthy};
ghost use Rattle.tx_values.specs.Calls.Lists.{equal_all, all_within};

use crate::Value;
use tx_text::PyText;

/// Whether two values are equal, as Python's `==`: `True == 1`, `(1,) == (True,)`, `[] != ()`. It takes no memory and
/// holds for every value, also for a dictionary with repeated keys; of two dictionaries it looks for each pair of the
/// first in the second, at its own place first: in the same order n pairs take n comparisons, else at most n for each.
#[cycle(equal)]
pub fn equal(a: &Value, b: &Value) -> bool
    ensures { result ≡ equal a.now b.now }
{
    match a {
        Value::Nil => match b {
            Value::Nil => true,
            _ => false,
        },
        Value::Truth(x) => match b {
            Value::Truth(y) => *x == *y,
            Value::Int(n) => i128::from(*x) == *n,
            _ => false,
        },
        Value::Int(m) => match b {
            Value::Truth(y) => *m == i128::from(*y),
            Value::Int(n) => *m == *n,
            _ => false,
        },
        Value::Text(s) => match b {
            Value::Text(t) => same_text(s, t),
            _ => false,
        },
        Value::Tuple(xs) => match b {
            Value::Tuple(ys) => equal_all(xs.as_slice(), ys.as_slice()),
            _ => false,
        },
        Value::List(xs) => match b {
            Value::List(ys) => equal_all(xs.as_slice(), ys.as_slice()),
            _ => false,
        },
        Value::Dict(ps) => match b {
            Value::Dict(qs) => ps.len() == qs.len() && all_within(ps.as_slice(), qs.as_slice()),
            _ => false,
        },
    }
}

fn same_text(s: &PyText, t: &PyText) -> bool
    ensures { result ≡ same_text s.now t.now }
{
    s.equal(t)
}

#[cycle(equal)]
fn equal_all(xs: &[Value], ys: &[Value]) -> bool
    ensures { result ≡ equal_all xs.now ys.now }
{
    if xs.len() != ys.len() {
        return false;
    }
    for i in 0..xs.len() {
        if !equal(&xs[i], &ys[i]) {
            return false;
        }
    }
    true
}

#[cycle(equal)]
fn all_within(ps: &[(Value, Value)], qs: &[(Value, Value)]) -> bool
    ensures { result ≡ all_within ps.now qs.now }
{
    for i in 0..ps.len() {
        let p = &ps[i];
        // Dictionaries are mostly in one order, so the same place is tried first.
        let mut found = i < qs.len() && equal(&p.0, &qs[i].0) && equal(&p.1, &qs[i].1);
        for q in qs {
            if found {
                break;
            }
            found = equal(&p.0, &q.0) && equal(&p.1, &q.1);
        }
        if !found {
            return false;
        }
    }
    true
}

/// Whether a value counts as true, as Python's `bool`: None, False, 0 and what is empty do not.
pub fn truthy(a: &Value) -> bool
    ensures { result ≡ truthy a.now }
{
    match a {
        Value::Nil => false,
        Value::Truth(b) => *b,
        Value::Int(n) => *n != 0,
        Value::Text(text) => text.len() > 0,
        Value::Tuple(items) => items.len() > 0,
        Value::List(items) => items.len() > 0,
        Value::Dict(pairs) => pairs.len() > 0,
    }
}

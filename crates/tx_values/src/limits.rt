// The weight and the depth of a value, and the limits of both.
ghost use Rattle.std.specs.Prelude.{◌≡◌, ◌+◌, ◌-◌, ◌^◌, min};
ghost use Rattle.tx_values.specs.Limits.{weight, depth, made};
ghost use Rattle.tx_values.specs.Calls.Lists.{weight_all, weight_pairs, depth_all, depth_pairs};

use crate::Value;
use tx_base::Class;

/// The greatest weight of a valid value.
pub const MOST_WEIGHT: u64 = 1_048_576;

/// The greatest depth of a valid value.
pub const MOST_DEPTH: u32 = 16;

/// How much a value holds: the characters of its texts, and the items and pairs of its containers, at every depth. Of
/// `["ab", 7]` it is 4. A weight past the type's last value stands there.
#[cycle(weight)]
pub fn weight(a: &Value) -> u64
    ensures { result ≡ min (weight a.now) (2 ^ 64 - 1) }
{
    match a {
        Value::Nil => 0,
        Value::Truth(_) => 0,
        Value::Int(_) => 0,
        Value::Text(text) => text.len() as u64,
        Value::Tuple(items) => weight_all(items.as_slice()),
        Value::List(items) => weight_all(items.as_slice()),
        Value::Dict(pairs) => weight_pairs(pairs.as_slice()),
    }
}

#[cycle(weight)]
fn weight_all(items: &[Value]) -> u64
    ensures { result ≡ min (weight_all items.now) (2 ^ 64 - 1) }
{
    let mut sum: u64 = 0;
    for item in items {
        sum = sum.saturating_add(weight(item)).saturating_add(1);
    }
    sum
}

#[cycle(weight)]
fn weight_pairs(pairs: &[(Value, Value)]) -> u64
    ensures { result ≡ min (weight_pairs pairs.now) (2 ^ 64 - 1) }
{
    let mut sum: u64 = 0;
    for pair in pairs {
        sum = sum
            .saturating_add(weight(&pair.0))
            .saturating_add(weight(&pair.1))
            .saturating_add(1);
    }
    sum
}

/// How deep a value goes: 0 for a scalar, 1 for `[]`, 2 for `[[]]`. A depth past the type's last value stands there.
#[tactic(auto, using(crate::proofs::DepthLemmas::depth_dict))]
#[cycle(depth)]
pub fn depth(a: &Value) -> u32
    ensures { result ≡ min (depth a.now) (2 ^ 32 - 1) }
{
    match a {
        Value::Tuple(items) => depth_all(items.as_slice()).saturating_add(1),
        Value::List(items) => depth_all(items.as_slice()).saturating_add(1),
        Value::Dict(pairs) => depth_pairs(pairs.as_slice()).saturating_add(1),
        _ => 0,
    }
}

#[cycle(depth)]
fn depth_all(items: &[Value]) -> u32
    ensures { result ≡ min (depth_all items.now) (2 ^ 32 - 1) }
{
    let mut most: u32 = 0;
    for item in items {
        most = most.max(depth(item));
    }
    most
}

#[cycle(depth)]
fn depth_pairs(pairs: &[(Value, Value)]) -> u32
    ensures { result ≡ min (depth_pairs pairs.now) (2 ^ 32 - 1) }
{
    let mut most: u32 = 0;
    for pair in pairs {
        most = most.max(depth(&pair.0)).max(depth(&pair.1));
    }
    most
}

/// What an operation answers with a value that it made: the value, or ProfileError exactly where it is past the greatest
/// weight or depth. The value is dropped then.
pub fn made(a: Value) -> Result<Value, Class>
    ensures { result ≡ made a }
{
    if weight(&a) <= MOST_WEIGHT && depth(&a) <= MOST_DEPTH {
        Ok(a)
    } else {
        Err(Class::ProfileError)
    }
}

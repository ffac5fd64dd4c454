// Whether a container that is not made yet is within the limits: its weight is known before its parts are copied.
ghost use Rattle.std.specs.Prelude.{◌≡◌, ◌^◌, ◌-◌, ℕ, List, if◌then◌else◌, map, min, IfOk, Ok, Err};
ghost use Rattle.tx_base.specs.declared.class.Class.{Class};
ghost use Rattle.tx_base.specs.declared.class.Class.TheVariants as class;
ghost use Rattle.tx_text.specs.Limits.{UpTo};
ghost use Rattle.tx_methods.specs.TextMethods.{made_text};
ghost use Rattle.tx_values.specs.declared.value.Value.TheVariants as value;
ghost use Rattle.tx_values.specs.Limits.{in_limits, most_weight};
ghost use Rattle.tx_methods.specs.Walks.{character, couple, iterate_of};
ghost use Rattle.tx_methods.specs.Calls.{depth_of_values, items_within, keys_of, weight_of_values};

use tx_base::Class;
use tx_text::{Long, PyText};
use tx_values::{MOST_DEPTH, MOST_WEIGHT, OpError, Value, depth, weight};

/// The greatest number of characters of a text.
pub(crate) const MOST: usize = 1_048_576;

// The weight of a container of these items, as far as the type goes.
fn weight_of_values(items: &[Value]) -> u64
    ensures { result ≡ min (weight_of_values items.now) (2 ^ 64 - 1) }
{
    let mut sum: u64 = 0;
    for item in items {
        sum = sum.saturating_add(weight(item)).saturating_add(1);
    }
    sum
}

// The greatest depth of these items.
fn depth_of_values(items: &[Value]) -> u32
    ensures { result ≡ min (depth_of_values items.now) (2 ^ 32 - 1) }
{
    let mut most: u32 = 0;
    for item in items {
        most = most.max(depth(item));
    }
    most
}

// The same of the keys of pairs.
fn weight_of_keys(pairs: &[(Value, Value)]) -> u64
    ensures { result ≡ min (weight_of_values (keys_of pairs.now)) (2 ^ 64 - 1) }
{
    let mut sum: u64 = 0;
    for pair in pairs {
        sum = sum.saturating_add(weight(&pair.0)).saturating_add(1);
    }
    sum
}

fn depth_of_keys(pairs: &[(Value, Value)]) -> u32
    ensures { result ≡ min (depth_of_values (keys_of pairs.now)) (2 ^ 32 - 1) }
{
    let mut most: u32 = 0;
    for pair in pairs {
        most = most.max(depth(&pair.0));
    }
    most
}

// Whether the list of the characters of a text is within the limits: each weighs 1 beside its place.
fn characters_fit(text: &PyText) -> bool
    ensures { result ≡ in_limits (value.List (map character text.now)) }
{
    text.len() as u64 <= MOST_WEIGHT / 2
}

/// Whether the list, and so the tuple, of the items of a value is within the limits; true of a value that has none.
pub(crate) fn items_fit(a: &Value) -> bool
    ensures { items_within a.now ≡ (if result then iterate_of a.now else Err class.ProfileError) }
{
    match a {
        Value::Text(text) => characters_fit(text),
        Value::Tuple(items) => values_fit(items.as_slice()),
        Value::List(items) => values_fit(items.as_slice()),
        Value::Dict(pairs) => keys_fit(pairs.as_slice()),
        _ => true,
    }
}

// Whether the list of these items is within the limits.
fn values_fit(items: &[Value]) -> bool
    ensures { result ≡ in_limits (value.List items.now) }
{
    weight_of_values(items) <= MOST_WEIGHT && depth_of_values(items) < MOST_DEPTH
}

// Whether the list of the keys of these pairs is within the limits.
fn keys_fit(pairs: &[(Value, Value)]) -> bool
    ensures { result ≡ in_limits (value.List (keys_of pairs.now)) }
{
    weight_of_keys(pairs) <= MOST_WEIGHT && depth_of_keys(pairs) < MOST_DEPTH
}

/// Whether the tuple of two values is within the limits.
pub(crate) fn couple_fits(a: &Value, b: &Value) -> bool
    ensures { result ≡ in_limits (couple (a.now, b.now)) }
{
    let heavy = weight(a).saturating_add(weight(b)).saturating_add(2);
    heavy <= MOST_WEIGHT && depth(a).max(depth(b)) < MOST_DEPTH
}

/// A text that has at most so many characters, as a value.
pub(crate) fn made_text(found: Result<PyText, Long>) -> Result<Value, OpError>
    ensures value { (text : List ℕ) → UpTo most_weight text found → IfOk result (λ v. made_text text ≡ Ok v) }
    ensures raise { (text : List ℕ) (c : Class) → UpTo most_weight text found → result ≡ Err (OpError.Raise c) → made_text text ≡ Err c }
{
    match found {
        Ok(text) => Ok(Value::Text(text)),
        Err(Long::TooLong) => Err(OpError::Raise(Class::ProfileError)),
        Err(Long::NoMemory) => Err(OpError::NoMemory),
    }
}

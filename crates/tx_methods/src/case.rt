// `lower`, `upper` and `isdigit`, which take no argument.
ghost use Rattle.std.specs.Prelude.{◌≡◌, ◌==◌, Ok, Err, IfOk, count_by, length, nat_le};
ghost use Rattle.std.specs.List.{flat_map};
ghost use Rattle.std.specs.Str.{chars};
ghost use Rattle.tx_base.specs.declared.class.Class.{Class};
ghost use Rattle.tx_text.specs.Text.{upper_char};
ghost use Rattle.tx_values.specs.Limits.{most_weight};
ghost use Rattle.tx_methods.specs.Arguments.{without};
ghost use Rattle.tx_methods.specs.TextMethods.{digit_test, lower_text, upper_text};

use crate::limits::MOST;
use tx_base::Class;
use tx_text::PyText;
use tx_values::{OpError, Value};

// `lower`.
fn lower_text(text: &PyText) -> Result<Value, OpError>
    ensures value { IfOk result (λ v. lower_text text.now ≡ Ok v) }
    ensures raise { (c : Class) → result ≡ Err (OpError.Raise c) → lower_text text.now ≡ Err c }
{
    match text.lower()? {
        Some(changed) => Ok(Value::Text(changed)),
        None => Err(OpError::Raise(Class::ProfileError)),
    }
}

// How often a character becomes two in capitals.
fn doubled(text: &str) -> usize
    ensures { result ≡ count_by (λ c. c == 0xDF) (chars text.now) }
{
    text.chars().filter(|c| *c == 'ß').count()
}

// Whether the text in capitals is within the limits.
fn capitals_fit(text: &PyText) -> bool
    ensures { result ≡ nat_le (length (flat_map upper_char text.now)) most_weight }
{
    let more = doubled(text.as_str());
    text.len().saturating_add(more) <= MOST
}

// `upper`.
fn upper_text(text: &PyText) -> Result<Value, OpError>
    ensures value { IfOk result (λ v. upper_text text.now ≡ Ok v) }
    ensures raise { (c : Class) → result ≡ Err (OpError.Raise c) → upper_text text.now ≡ Err c }
{
    if !capitals_fit(text) {
        return Err(OpError::Raise(Class::ProfileError));
    }
    match text.upper()? {
        Some(changed) => Ok(Value::Text(changed)),
        None => Err(OpError::Raise(Class::ProfileError)),
    }
}

// `isdigit`.
fn digit_test(text: &PyText) -> Result<Value, OpError>
    ensures value { IfOk result (λ v. digit_test text.now ≡ Ok v) }
    ensures raise { (c : Class) → result ≡ Err (OpError.Raise c) → digit_test text.now ≡ Err c }
{
    match text.is_digit() {
        Some(are_digits) => Ok(Value::Truth(are_digits)),
        None => Err(OpError::Raise(Class::ProfileError)),
    }
}

/// `lower`.
pub(crate) fn lower_of(text: &PyText, args: &[Value]) -> Result<Value, OpError>
    ensures value { IfOk result (λ v. without args.now (lower_text text.now) ≡ Ok v) }
    ensures raise { (c : Class) → result ≡ Err (OpError.Raise c) → without args.now (lower_text text.now) ≡ Err c }
{
    match args {
        [] => lower_text(text),
        _ => Err(OpError::Raise(Class::TypeError)),
    }
}

/// `upper`.
pub(crate) fn upper_of(text: &PyText, args: &[Value]) -> Result<Value, OpError>
    ensures value { IfOk result (λ v. without args.now (upper_text text.now) ≡ Ok v) }
    ensures raise { (c : Class) → result ≡ Err (OpError.Raise c) → without args.now (upper_text text.now) ≡ Err c }
{
    match args {
        [] => upper_text(text),
        _ => Err(OpError::Raise(Class::TypeError)),
    }
}

/// `isdigit`.
pub(crate) fn digit_test_of(text: &PyText, args: &[Value]) -> Result<Value, OpError>
    ensures value { IfOk result (λ v. without args.now (digit_test text.now) ≡ Ok v) }
    ensures raise { (c : Class) → result ≡ Err (OpError.Raise c) → without args.now (digit_test text.now) ≡ Err c }
{
    match args {
        [] => digit_test(text),
        _ => Err(OpError::Raise(Class::TypeError)),
    }
}

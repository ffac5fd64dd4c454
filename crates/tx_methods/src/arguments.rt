// What arguments are taken as: how many they are, and of which kinds. What does not fit is TypeError.
ghost use Rattle.std.specs.Prelude.{◌≡◌, Ok, Err, IfOk, option_copied};
ghost use Rattle.tx_base.specs.declared.class.Class.{Class};
ghost use Rattle.tx_methods.specs.Arguments.{a_number, a_text, both, one_number, one_or_two, one_text, only, optional_text, two_texts};

use tx_base::Class;
use tx_text::PyText;
use tx_values::{OpError, Value};

/// The one argument.
pub(crate) fn only(args: &[Value]) -> Result<&Value, OpError>
    ensures value { IfOk result (λ a. only args.now ≡ Ok a.now) }
    ensures raise { (c : Class) → result ≡ Err (OpError.Raise c) → only args.now ≡ Err c }
{
    match args {
        [a] => Ok(a),
        _ => Err(OpError::Raise(Class::TypeError)),
    }
}

/// The two arguments.
pub(crate) fn both(args: &[Value]) -> Result<(&Value, &Value), OpError>
    ensures value { IfOk result (λ p. both args.now ≡ Ok (p.0.now, p.1.now)) }
    ensures raise { (c : Class) → result ≡ Err (OpError.Raise c) → both args.now ≡ Err c }
{
    match args {
        [a, b] => Ok((a, b)),
        _ => Err(OpError::Raise(Class::TypeError)),
    }
}

/// The one argument, and a second one where it stands there.
pub(crate) fn one_or_two(args: &[Value]) -> Result<(&Value, Option<&Value>), OpError>
    ensures value { IfOk result (λ p. one_or_two args.now ≡ Ok (p.0.now, option_copied p.1)) }
    ensures raise { (c : Class) → result ≡ Err (OpError.Raise c) → one_or_two args.now ≡ Err c }
{
    match args {
        [a] => Ok((a, None)),
        [a, b] => Ok((a, Some(b))),
        _ => Err(OpError::Raise(Class::TypeError)),
    }
}

/// The integer that a number is; a truth value is 0 or 1.
pub(crate) fn a_number(a: &Value) -> Result<i128, OpError>
    ensures value { IfOk result (λ n. a_number a.now ≡ Ok n) }
    ensures raise { (c : Class) → result ≡ Err (OpError.Raise c) → a_number a.now ≡ Err c }
{
    match a {
        Value::Truth(b) => Ok(i128::from(*b)),
        Value::Int(n) => Ok(*n),
        _ => Err(OpError::Raise(Class::TypeError)),
    }
}

/// A text.
pub(crate) fn a_text(a: &Value) -> Result<&PyText, OpError>
    ensures value { IfOk result (λ t. a_text a.now ≡ Ok t.now) }
    ensures raise { (c : Class) → result ≡ Err (OpError.Raise c) → a_text a.now ≡ Err c }
{
    match a {
        Value::Text(text) => Ok(text),
        _ => Err(OpError::Raise(Class::TypeError)),
    }
}

/// The one argument, a number.
pub(crate) fn one_number(args: &[Value]) -> Result<i128, OpError>
    ensures value { IfOk result (λ n. one_number args.now ≡ Ok n) }
    ensures raise { (c : Class) → result ≡ Err (OpError.Raise c) → one_number args.now ≡ Err c }
{
    a_number(only(args)?)
}

/// The one argument, a text.
pub(crate) fn one_text(args: &[Value]) -> Result<&PyText, OpError>
    ensures value { IfOk result (λ t. one_text args.now ≡ Ok t.now) }
    ensures raise { (c : Class) → result ≡ Err (OpError.Raise c) → one_text args.now ≡ Err c }
{
    a_text(only(args)?)
}

/// The two arguments, both texts.
pub(crate) fn two_texts(args: &[Value]) -> Result<(&PyText, &PyText), OpError>
    ensures value { IfOk result (λ p. two_texts args.now ≡ Ok (p.0.now, p.1.now)) }
    ensures raise { (c : Class) → result ≡ Err (OpError.Raise c) → two_texts args.now ≡ Err c }
{
    let (a, b) = both(args)?;
    let first = a_text(a)?;
    let second = a_text(b)?;
    Ok((first, second))
}

/// The one argument, a text, or none; None stands for no argument.
pub(crate) fn optional_text(args: &[Value]) -> Result<Option<&PyText>, OpError>
    ensures value { IfOk result (λ o. optional_text args.now ≡ Ok (option_copied o)) }
    ensures raise { (c : Class) → result ≡ Err (OpError.Raise c) → optional_text args.now ≡ Err c }
{
    match args {
        [] => Ok(None),
        [Value::Nil] => Ok(None),
        [Value::Text(text)] => Ok(Some(text)),
        _ => Err(OpError::Raise(Class::TypeError)),
    }
}

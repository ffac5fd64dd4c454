// Built-in functions.
ghost use Rattle.std.specs.Prelude.{◌≡◌, ◌∷◌, [], Ok, Err, IfOk, MatchOption, pos, codes, true};
ghost use Rattle.std.specs.List.{list_all, list_any};
ghost use Rattle.tx_base.specs.declared.class.Class.{Class};
ghost use Rattle.tx_values.specs.Equality.{truthy};
ghost use Rattle.tx_values.specs.declared.value.Value.{out-Value};
ghost use Rattle.tx_values.specs.declared.value.Value.TheVariants as value;
ghost use Rattle.tx_values.specs.declared.value.Value.TheOpen as v;
ghost use Rattle.tx_methods.specs.Calls.{is_fold};
ghost use Rattle.tx_methods.specs.Arguments.{only};
ghost use Rattle.tx_tree.specs.declared.function.Builtin.TheVariants as builtin;
ghost use Rattle.tx_methods.specs.Builtins.{abs_of, builtin_of, int_in, int_read, len_in, of_candidates, of_items, of_items_in, of_value, ord_in, str_in};

use crate::arguments::{a_number, only};
use crate::extremes::{greatest, least};
use crate::limits::items_fit;
use crate::sums::sum_of_items;
use crate::walks::iterate;
use std::alloc::Global;
use tx_base::Class;
use tx_num::{IntRead, neg, print_int, read_int};
use tx_text::{NoMemory, PyText};
use tx_tree::Builtin;
use tx_values::{Items, OpError, Value, copy, truthy};

/// A number of characters, items or pairs, or a place among them, as an integer.
pub(crate) fn natural(n: usize) -> Value
    ensures { result ≡ value.Int (pos n) }
{
    Value::Int(n as i128)
}

// `len(a)`.
fn len_of(a: &Value) -> Result<Value, OpError>
    ensures value { IfOk result (λ v. len_in (out-Value a.now) ≡ Ok v) }
    ensures raise { (c : Class) → result ≡ Err (OpError.Raise c) → len_in (out-Value a.now) ≡ Err c }
{
    match a {
        Value::Text(text) => Ok(natural(text.len())),
        Value::Tuple(items) => Ok(natural(items.len())),
        Value::List(items) => Ok(natural(items.len())),
        Value::Dict(pairs) => Ok(natural(pairs.len())),
        _ => Err(OpError::Raise(Class::TypeError)),
    }
}

// What a text gives as an integer.
fn int_read(read: IntRead) -> Result<Value, OpError>
    ensures value { IfOk result (λ v. int_read read ≡ Ok v) }
    ensures raise { (c : Class) → result ≡ Err (OpError.Raise c) → int_read read ≡ Err c }
{
    match read {
        IntRead::Value(n) => Ok(Value::Int(n)),
        IntRead::NotInt => Err(OpError::Raise(Class::ValueError)),
        IntRead::Past => Err(OpError::Raise(Class::OverflowError)),
        IntRead::OutOfProfile => Err(OpError::Raise(Class::ProfileError)),
    }
}

// `int(a)`.
fn int_of(a: &Value) -> Result<Value, OpError>
    ensures value { IfOk result (λ v. int_in (out-Value a.now) ≡ Ok v) }
    ensures raise { (c : Class) → result ≡ Err (OpError.Raise c) → int_in (out-Value a.now) ≡ Err c }
{
    match a {
        Value::Truth(b) => Ok(Value::Int(i128::from(*b))),
        Value::Int(n) => Ok(Value::Int(*n)),
        Value::Text(text) => int_read(read_int(text)),
        _ => Err(OpError::Raise(Class::TypeError)),
    }
}

// A word as a value.
fn none_word(alloc: Global) -> Result<Value, NoMemory>
    ensures { IfOk result (λ v. v ≡ value.Text (codes "None")) }
{
    Ok(Value::Text(PyText::from_str(alloc, "None")?))
}

fn true_word(alloc: Global) -> Result<Value, NoMemory>
    ensures { IfOk result (λ v. v ≡ value.Text (codes "True")) }
{
    Ok(Value::Text(PyText::from_str(alloc, "True")?))
}

fn false_word(alloc: Global) -> Result<Value, NoMemory>
    ensures { IfOk result (λ v. v ≡ value.Text (codes "False")) }
{
    Ok(Value::Text(PyText::from_str(alloc, "False")?))
}

// `str(a)`.
fn str_of(alloc: Global, a: &Value) -> Result<Value, OpError>
    ensures value { IfOk result (λ v. str_in (out-Value a.now) ≡ Ok v) }
    ensures raise { (c : Class) → result ≡ Err (OpError.Raise c) → str_in (out-Value a.now) ≡ Err c }
{
    match a {
        Value::Nil => Ok(none_word(alloc)?),
        Value::Truth(true) => Ok(true_word(alloc)?),
        Value::Truth(false) => Ok(false_word(alloc)?),
        Value::Int(n) => Ok(Value::Text(print_int(alloc, *n)?)),
        Value::Text(text) => Ok(Value::Text(text.slice(0, text.len())?)),
        _ => Err(OpError::Raise(Class::ProfileError)),
    }
}

// `abs(a)`.
fn abs_of(a: &Value) -> Result<Value, OpError>
    ensures value { IfOk result (λ v. abs_of a.now ≡ Ok v) }
    ensures raise { (c : Class) → result ≡ Err (OpError.Raise c) → abs_of a.now ≡ Err c }
{
    let n = a_number(a)?;
    let magnitude = if n < 0 { neg(n) } else { Some(n) };
    match magnitude {
        Some(n) => Ok(Value::Int(n)),
        None => Err(OpError::Raise(Class::OverflowError)),
    }
}

// `ord(a)`.
fn ord_of(a: &Value) -> Result<Value, OpError>
    ensures value { IfOk result (λ v. ord_in (out-Value a.now) ≡ Ok v) }
    ensures raise { (c : Class) → result ≡ Err (OpError.Raise c) → ord_in (out-Value a.now) ≡ Err c }
{
    let Value::Text(text) = a else {
        return Err(OpError::Raise(Class::TypeError));
    };
    match only_char(text) {
        Some(c) => Ok(natural(c as usize)),
        None => Err(OpError::Raise(Class::TypeError)),
    }
}

// The character of a text of one character.
fn only_char(text: &PyText) -> Option<char>
    ensures { MatchOption result (ord_in (v.Text text.now) ≡ Err Class.TypeError) (λ c. text.now ≡ c ∷ []) }
{
    if text.len() == 1 {
        text.char_at(0)
    } else {
        None
    }
}

// Whether some item counts as true.
fn is_some_true(items: &[Value]) -> bool
    ensures { result ≡ list_any truthy items.now }
{
    for item in items {
        if truthy(item) {
            return true;
        }
    }
    false
}

// Whether each item counts as true.
fn are_all_true(items: &[Value]) -> bool
    ensures { result ≡ list_all truthy items.now }
{
    for item in items {
        if !truthy(item) {
            return false;
        }
    }
    true
}

// What a function that folds items makes of them.
fn fold(alloc: Global, b: Builtin, items: &[Value]) -> Result<Value, OpError>
    requires { is_fold b ≡ true }
    ensures value { IfOk result (λ v. of_items b items.now ≡ Ok v) }
    ensures raise { (c : Class) → result ≡ Err (OpError.Raise c) → of_items b items.now ≡ Err c }
{
    match b {
        Builtin::Min => Ok(copy(alloc, least(items)?)?),
        Builtin::Max => Ok(copy(alloc, greatest(items)?)?),
        Builtin::Sum => sum_of_items(items),
        Builtin::Any => Ok(Value::Truth(is_some_true(items))),
        Builtin::All => Ok(Value::Truth(are_all_true(items))),
        _ => Err(OpError::Raise(Class::TypeError)),
    }
}

// The same over the items of a value. Those of a tuple or list are not copied for it.
fn fold_items(alloc: Global, b: Builtin, a: &Value) -> Result<Value, OpError>
    requires { is_fold b ≡ true }
    ensures value { IfOk result (λ v. of_items_in b a.now ≡ Ok v) }
    ensures raise { (c : Class) → result ≡ Err (OpError.Raise c) → of_items_in b a.now ≡ Err c }
{
    match a {
        Value::Tuple(items) => fold(alloc, b, items.as_slice()),
        Value::List(items) => fold(alloc, b, items.as_slice()),
        _ => {
            let items = iterate(alloc, a)?;
            fold(alloc, b, items.as_slice())
        }
    }
}

// The items of a value for a container of them, where that is within the limits.
fn items_within(alloc: Global, a: &Value) -> Result<Items, OpError>
    ensures list { IfOk result (λ items. of_items_in builtin.List a.now ≡ Ok (value.List items)) }
    ensures tuple { IfOk result (λ items. of_items_in builtin.Tuple a.now ≡ Ok (value.Tuple items)) }
    ensures raise_list { (c : Class) → result ≡ Err (OpError.Raise c) → of_items_in builtin.List a.now ≡ Err c }
    ensures raise_tuple { (c : Class) → result ≡ Err (OpError.Raise c) → of_items_in builtin.Tuple a.now ≡ Err c }
{
    if !items_fit(a) {
        return Err(OpError::Raise(Class::ProfileError));
    }
    iterate(alloc, a)
}

// A function of one argument.
fn of_value(alloc: Global, b: Builtin, a: &Value) -> Result<Value, OpError>
    ensures value { IfOk result (λ v. of_value b a.now ≡ Ok v) }
    ensures raise { (c : Class) → result ≡ Err (OpError.Raise c) → of_value b a.now ≡ Err c }
{
    match b {
        Builtin::Len => len_of(a),
        Builtin::Int => int_of(a),
        Builtin::Str => str_of(alloc, a),
        Builtin::Bool => Ok(Value::Truth(truthy(a))),
        Builtin::Abs => abs_of(a),
        Builtin::Ord => ord_of(a),
        Builtin::List => Ok(Value::List(items_within(alloc, a)?)),
        Builtin::Tuple => Ok(Value::Tuple(items_within(alloc, a)?)),
        Builtin::Min => fold_items(alloc, Builtin::Min, a),
        Builtin::Max => fold_items(alloc, Builtin::Max, a),
        Builtin::Sum => fold_items(alloc, Builtin::Sum, a),
        Builtin::Any => fold_items(alloc, Builtin::Any, a),
        Builtin::All => fold_items(alloc, Builtin::All, a),
    }
}

// `min` and `max`: of one argument the items, and of several these.
fn extreme(alloc: Global, b: Builtin, args: &[Value]) -> Result<Value, OpError>
    requires { is_fold b ≡ true }
    ensures value { IfOk result (λ v. of_candidates b args.now ≡ Ok v) }
    ensures raise { (c : Class) → result ≡ Err (OpError.Raise c) → of_candidates b args.now ≡ Err c }
{
    match args {
        [] => Err(OpError::Raise(Class::TypeError)),
        [a] => fold_items(alloc, b, a),
        _ => fold(alloc, b, args),
    }
}

/// What a built-in function gives (`docs/LANGUAGE.md`, "Functions and methods"): `max([1, True])` is 1. For a number of
/// arguments that it does not take that is TypeError.
pub fn builtin(alloc: Global, b: Builtin, args: &Items) -> Result<Value, OpError>
    ensures value { IfOk result (λ v. builtin_of b args.now ≡ Ok v) }
    ensures raise { (c : Class) → result ≡ Err (OpError.Raise c) → builtin_of b args.now ≡ Err c }
{
    let args = args.as_slice();
    match b {
        Builtin::Min => extreme(alloc, Builtin::Min, args),
        Builtin::Max => extreme(alloc, Builtin::Max, args),
        _ => of_value(alloc, b, only(args)?),
    }
}

/// The same of one argument, which is only looked at: `len(v)` copies nothing.
#[tactic(auto, using(crate::proofs::OneArgument::one_argument))]
pub fn builtin_of_one(alloc: Global, b: Builtin, a: &Value) -> Result<Value, OpError>
    ensures value { IfOk result (λ v. builtin_of b (a.now ∷ []) ≡ Ok v) }
    ensures raise { (c : Class) → result ≡ Err (OpError.Raise c) → builtin_of b (a.now ∷ []) ≡ Err c }
{
    of_value(alloc, b, a)
}

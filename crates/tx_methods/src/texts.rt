// The methods of texts: the calls of `PyText`, lifted to values.
ghost use Rattle.std.specs.Prelude.{◌≡◌, Ok, Err, IfOk};
ghost use Rattle.tx_base.specs.declared.class.Class.{Class};
ghost use Rattle.tx_text.specs.Text.{filled, first_place, last_place, replaced};
ghost use Rattle.tx_values.specs.declared.value.Value.TheVariants as value;
ghost use Rattle.tx_methods.specs.TextMethods.{find_of, index_of, made_text, place_or_minus_one, replace_of, strip_of, text_count_of, text_method, width_of, zfill_of};

use crate::arguments::{one_number, one_text, optional_text, two_texts};
use crate::builtins::natural;
use crate::case::{digit_test_of, lower_of, upper_of};
use crate::fits::fit_of;
use crate::joins::join_of;
use crate::limits::{MOST, made_text};
use crate::splits::split_of;
use std::alloc::Global;
use tx_base::Class;
use tx_text::{PyText, Side};
use tx_tree::Method;
use tx_values::{OpError, Value};

// `strip` and its kin.
fn strip_of(side: Side, text: &PyText, args: &[Value]) -> Result<Value, OpError>
    ensures value { IfOk result (λ v. strip_of side text.now args.now ≡ Ok v) }
    ensures raise { (c : Class) → result ≡ Err (OpError.Raise c) → strip_of side text.now args.now ≡ Err c }
{
    let those = optional_text(args)?;
    Ok(Value::Text(text.strip(side, those)?))
}

// A text with each occurrence of another replaced.
fn replaced(text: &PyText, old: &PyText, new: &PyText) -> Result<Value, OpError>
    ensures value { IfOk result (λ v. made_text (replaced old.now new.now text.now) ≡ Ok v) }
    ensures raise { (c : Class) → result ≡ Err (OpError.Raise c) → made_text (replaced old.now new.now text.now) ≡ Err c }
{
    made_text(text.replace(old, new, MOST))
}

// `replace`.
fn replace_of(text: &PyText, args: &[Value]) -> Result<Value, OpError>
    ensures value { IfOk result (λ v. replace_of text.now args.now ≡ Ok v) }
    ensures raise { (c : Class) → result ≡ Err (OpError.Raise c) → replace_of text.now args.now ≡ Err c }
{
    let (old, new) = two_texts(args)?;
    replaced(text, old, new)
}

// A place, or -1.
fn place_or_minus_one(place: Option<usize>) -> Value
    ensures { result ≡ value.Int (place_or_minus_one place) }
{
    match place {
        Some(place) => natural(place),
        None => Value::Int(-1),
    }
}

// `find`.
fn find_of(text: &PyText, args: &[Value]) -> Result<Value, OpError>
    ensures value { IfOk result (λ v. find_of first_place text.now args.now ≡ Ok v) }
    ensures raise { (c : Class) → result ≡ Err (OpError.Raise c) → find_of first_place text.now args.now ≡ Err c }
{
    Ok(place_or_minus_one(text.find(one_text(args)?)))
}

// `rfind`.
fn rfind_of(text: &PyText, args: &[Value]) -> Result<Value, OpError>
    ensures value { IfOk result (λ v. find_of last_place text.now args.now ≡ Ok v) }
    ensures raise { (c : Class) → result ≡ Err (OpError.Raise c) → find_of last_place text.now args.now ≡ Err c }
{
    Ok(place_or_minus_one(text.rfind(one_text(args)?)))
}

// `index`.
fn index_of(text: &PyText, args: &[Value]) -> Result<Value, OpError>
    ensures value { IfOk result (λ v. index_of text.now args.now ≡ Ok v) }
    ensures raise { (c : Class) → result ≡ Err (OpError.Raise c) → index_of text.now args.now ≡ Err c }
{
    match text.find(one_text(args)?) {
        Some(place) => Ok(natural(place)),
        None => Err(OpError::Raise(Class::ValueError)),
    }
}

// `count`.
fn text_count_of(text: &PyText, args: &[Value]) -> Result<Value, OpError>
    ensures value { IfOk result (λ v. text_count_of text.now args.now ≡ Ok v) }
    ensures raise { (c : Class) → result ≡ Err (OpError.Raise c) → text_count_of text.now args.now ≡ Err c }
{
    Ok(natural(text.count(one_text(args)?)))
}

// A width, where it has 64 signed bits; one below 0 is as 0.
fn width_of(n: i128) -> Result<usize, OpError>
    ensures value { IfOk result (λ width. width_of n ≡ Ok width) }
    ensures raise { (c : Class) → result ≡ Err (OpError.Raise c) → width_of n ≡ Err c }
{
    if n < i128::from(i64::MIN) || n > i128::from(i64::MAX) {
        return Err(OpError::Raise(Class::OverflowError));
    }
    Ok(n.max(0) as usize)
}

// A text with zeros in front up to a width.
fn filled(text: &PyText, width: usize) -> Result<Value, OpError>
    ensures value { IfOk result (λ v. made_text (filled width text.now) ≡ Ok v) }
    ensures raise { (c : Class) → result ≡ Err (OpError.Raise c) → made_text (filled width text.now) ≡ Err c }
{
    made_text(text.zfill(width, MOST))
}

// `zfill`.
fn zfill_of(text: &PyText, args: &[Value]) -> Result<Value, OpError>
    ensures value { IfOk result (λ v. zfill_of text.now args.now ≡ Ok v) }
    ensures raise { (c : Class) → result ≡ Err (OpError.Raise c) → zfill_of text.now args.now ≡ Err c }
{
    let n = one_number(args)?;
    let width = width_of(n)?;
    filled(text, width)
}

/// What a method of a text gives.
pub(crate) fn text_method(
    alloc: Global,
    m: Method,
    text: &PyText,
    args: &[Value],
) -> Result<Value, OpError>
    ensures value { IfOk result (λ v. text_method m text.now args.now ≡ Ok v) }
    ensures raise { (c : Class) → result ≡ Err (OpError.Raise c) → text_method m text.now args.now ≡ Err c }
{
    match m {
        Method::Lower => lower_of(text, args),
        Method::Upper => upper_of(text, args),
        Method::Strip => strip_of(Side::Both, text, args),
        Method::Lstrip => strip_of(Side::Left, text, args),
        Method::Rstrip => strip_of(Side::Right, text, args),
        Method::Split => split_of(alloc, text, args),
        Method::Replace => replace_of(text, args),
        Method::Find => find_of(text, args),
        Method::Rfind => rfind_of(text, args),
        Method::Index => index_of(text, args),
        Method::Count => text_count_of(text, args),
        Method::StartsWith => fit_of(false, text, args),
        Method::EndsWith => fit_of(true, text, args),
        Method::Join => join_of(alloc, text, args),
        Method::Zfill => zfill_of(text, args),
        Method::IsDigit => digit_test_of(text, args),
        Method::Get => Err(OpError::Raise(Class::AttributeError)),
    }
}

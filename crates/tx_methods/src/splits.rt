// `split`: the weight of the list is known before its pieces are made.
ghost use Rattle.std.specs.Prelude.{◌≡◌, ◌≢◌, ◌^◌, ◌-◌, [], map, min, Ok, Err, None, Some, IfOk, false};
ghost use Rattle.std.specs.Str.{chars};
ghost use Rattle.tx_base.specs.declared.class.Class.{Class};
ghost use Rattle.tx_text.specs.Text.{pieces, words};
ghost use Rattle.tx_values.specs.declared.value.Value.TheVariants as value;
ghost use Rattle.tx_values.specs.Limits.{in_limits};
ghost use Rattle.tx_methods.specs.TextMethods.{pieces_list, split_of};
ghost use Rattle.tx_methods.specs.Calls.{words_weight};

use crate::arguments::optional_text;
use crate::limits::MOST;
use std::alloc::Global;
use tx_base::Class;
use tx_text::{
    NoMemory, PyText, Texts, counts_are_of_pieces, first_char, is_blank, pieces_are_the_text,
};
use tx_values::{Items, MOST_WEIGHT, OpError, Value};

// The weight of the list of a text's words.
fn words_weight(text: &str) -> u64
    ensures { result ≡ min (words_weight false (chars text.now)) (2 ^ 64 - 1) }
{
    let mut sum: u64 = 0;
    let mut within = false;
    let mut rest = text;
    'characters: while let Some((c, behind)) = first_char(rest) {
        if is_blank(c) {
            within = false;
        } else {
            sum = sum.saturating_add(if within { 1 } else { 2 });
            within = true;
        }
        rest = behind;
    }
    sum
}

// Whether the list of a text's words is within the limits.
fn words_fit(text: &PyText) -> bool
    ensures { result ≡ in_limits (value.List (map value.Text (words text.now))) }
{
    words_weight(text.as_str()) <= MOST_WEIGHT
}

// Whether the list of a text's pieces is within the limits: each weighs its characters and 1, and they are all the
// characters but those of the separators.
fn pieces_fit(text: &PyText, sep: &PyText) -> bool
    requires { sep.now ≢ [] }
    ensures { result ≡ in_limits (value.List (map value.Text (pieces sep.now text.now))) }
{
    pieces_are_the_text();
    counts_are_of_pieces();
    let cuts = text.count(sep);
    let length = text.len();
    let each = sep.len();
    let cut_off = cuts * each;
    let characters = length - cut_off;
    cuts.saturating_add(1).saturating_add(characters) <= MOST
}

// Texts as values.
fn values_of(alloc: Global, texts: Texts) -> Result<Items, NoMemory>
    ensures { IfOk result (λ items. items ≡ map value.Text texts) }
{
    let mut made = Vec::with_capacity(alloc, texts.len())?;
    for text in texts.into_vec() {
        made.push(Value::Text(text))?;
    }
    Ok(Items::from_vec(made))
}

// The list of a text's words.
fn split_at_blanks(alloc: Global, text: &PyText) -> Result<Value, OpError>
    ensures value { IfOk result (λ v. pieces_list text.now None ≡ Ok v) }
    ensures raise { (c : Class) → result ≡ Err (OpError.Raise c) → pieces_list text.now None ≡ Err c }
{
    if !words_fit(text) {
        return Err(OpError::Raise(Class::ProfileError));
    }
    let found = text.split_blank()?;
    Ok(Value::List(values_of(alloc, found)?))
}

// The list of a text's pieces between a separator.
fn split_at_text(alloc: Global, text: &PyText, sep: &PyText) -> Result<Value, OpError>
    ensures value { IfOk result (λ v. pieces_list text.now (Some sep.now) ≡ Ok v) }
    ensures raise { (c : Class) → result ≡ Err (OpError.Raise c) → pieces_list text.now (Some sep.now) ≡ Err c }
{
    if sep.len() == 0 {
        return Err(OpError::Raise(Class::ValueError));
    }
    if !pieces_fit(text, sep) {
        return Err(OpError::Raise(Class::ProfileError));
    }
    let found = text.split_on(sep)?;
    Ok(Value::List(values_of(alloc, found)?))
}

/// `split`.
pub(crate) fn split_of(alloc: Global, text: &PyText, args: &[Value]) -> Result<Value, OpError>
    ensures value { IfOk result (λ v. split_of text.now args.now ≡ Ok v) }
    ensures raise { (c : Class) → result ≡ Err (OpError.Raise c) → split_of text.now args.now ≡ Err c }
{
    match optional_text(args)? {
        None => split_at_blanks(alloc, text),
        Some(sep) => split_at_text(alloc, text, sep),
    }
}

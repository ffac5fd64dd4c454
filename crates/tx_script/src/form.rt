// Forms of operators and handlers: what a word with its arguments writes.
ghost use Rattle.std.specs.Prelude.{◌≡◌, true, map, IfOk, IfSome, Option, option_map};
ghost use Rattle.tx_pipe.specs.Lawful.{is_literal};
ghost use Rattle.std.specs.Option.{option_copied};
ghost use Rattle.tx_tree.specs.Tree.{tree_of, trees, arg_of};
ghost use Rattle.tx_script.specs.Forms as forms;
ghost use Rattle.tx_script.specs.Calls.View.{code_of, word_of};

use crate::literal::literal;
use crate::written::{Code, Named};
use std::alloc::Global;
use tx_base::Class;
use tx_pipe::{MapTo, class_at};
use tx_text::{NoMemory, PyText, Texts};
use tx_tree::{Arg, Expr};
use tx_values::Value;

// ---- arguments

pub(crate) fn copy_text(text: &PyText) -> Result<PyText, NoMemory>
    ensures { IfOk result (λ c. c ≡ text.now) }
{
    text.slice(0, text.len())
}

fn text_of(a: &Expr) -> Option<&PyText>
    ensures { option_copied result ≡ forms.text_of (tree_of a.now) }
{
    match a {
        Expr::Text { value, .. } => Some(value),
        _ => None,
    }
}

fn texts_of(alloc: Global, items: &[Expr]) -> Result<Option<Texts>, NoMemory>
    ensures { IfOk result (λ o. o ≡ forms.texts_of (trees (map tree_of items.now))) }
{
    let mut done = Texts::new(alloc);
    for item in items {
        let Some(text) = text_of(item) else {
            return Ok(None);
        };
        done.push(copy_text(text)?)?;
    }
    Ok(Some(done))
}

pub(crate) fn text_in(arg: &Arg) -> Option<&PyText>
    ensures { option_copied result ≡ forms.text_in (arg_of arg.now) }
{
    match arg {
        Arg::Plain(a) => text_of(a),
        Arg::Lambda { .. } => None,
    }
}

fn texts_of_list(alloc: Global, a: &Expr) -> Result<Option<Texts>, NoMemory>
    ensures { IfOk result (λ o. o ≡ forms.texts_of_list (tree_of a.now)) }
{
    match a {
        Expr::List { items, .. } => texts_of(alloc, items.as_slice()),
        _ => Ok(None),
    }
}

pub(crate) fn texts_in(alloc: Global, arg: &Arg) -> Result<Option<Texts>, NoMemory>
    ensures { IfOk result (λ o. o ≡ forms.texts_in (arg_of arg.now)) }
{
    match arg {
        Arg::Plain(a) => texts_of_list(alloc, a),
        Arg::Lambda { .. } => Ok(None),
    }
}

// What a `map` makes.
pub(crate) fn results_in(alloc: Global, arg: &Arg) -> Result<Option<MapTo>, NoMemory>
    ensures { IfOk result (λ o. o ≡ forms.results_in (arg_of arg.now)) }
{
    if let Some(name) = text_in(arg) {
        return Ok(Some(MapTo::Column(copy_text(name)?)));
    }
    match texts_in(alloc, arg)? {
        Some(names) => Ok(Some(MapTo::Columns(names))),
        None => Ok(None),
    }
}

fn name_of(a: &Expr) -> Option<Named<'_>>
    ensures { option_map word_of result ≡ forms.word_of (tree_of a.now) }
{
    match a {
        Expr::Name { line, name } => Some(Named { line: *line, name }),
        _ => None,
    }
}

pub(crate) fn word_in(arg: &Arg) -> Option<Named<'_>>
    ensures { option_map word_of result ≡ forms.word_in (arg_of arg.now) }
{
    match arg {
        Arg::Plain(a) => name_of(a),
        Arg::Lambda { .. } => None,
    }
}

pub(crate) fn code_in(arg: &Arg) -> Option<Code<'_>>
    ensures { option_map code_of result ≡ forms.code_in (arg_of arg.now) }
{
    match arg {
        Arg::Lambda { line, params, body } => Some(Code::Lambda {
            line: *line,
            params,
            body,
        }),
        Arg::Plain(a) => match name_of(a) {
            Some(Named { line, name }) => Some(Code::Def { line, name }),
            None => None,
        },
    }
}

pub(crate) fn class_in(arg: &Arg) -> Option<Class>
    ensures { result ≡ forms.class_in (arg_of arg.now) }
{
    match word_in(arg) {
        Some(word) => class_at(word.name),
        None => None,
    }
}

pub(crate) fn value_in(alloc: Global, arg: &Arg) -> Result<Option<Value>, NoMemory>
    ensures same { IfOk result (λ o. o ≡ forms.value_in (arg_of arg.now)) }
    ensures literal { IfOk result (λ o. IfSome o (λ v. is_literal v ≡ true)) }
{
    match arg {
        Arg::Plain(a) => literal(alloc, a),
        Arg::Lambda { .. } => Ok(None),
    }
}

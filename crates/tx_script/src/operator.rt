// The forms of links and of heads with arguments. Where the arguments are of no form there is no part.
ghost use Rattle.std.specs.Prelude.{◌≡◌, [], ◌∷◌, map, length, IfOk, Option, Some, None, option_map, IsTrue, ◌↔◌, true};
ghost use Rattle.std.specs.Option.{option_copied};
ghost use Rattle.tx_tree.specs.Tree.{arg_of};
ghost use Rattle.tx_values.specs.Limits.{in_limits};
ghost use Rattle.tx_pipe.specs.declared.verb.Verb.TheVariants as verb;
ghost use Rattle.tx_pipe.specs.Pipe.{map_to, select_columns, aggregate};
ghost use Rattle.tx_pipe.specs.Lawful.{is_literal};
ghost use Rattle.tx_pipe.specs.Column.{bytes_of};
ghost use Rattle.tx_script.specs.Forms as forms;
ghost use Rattle.tx_script.specs.Calls.View.{code_of, part_of};

use crate::form::{class_in, code_in, results_in, text_in, texts_in, value_in, word_in};
use crate::written::{Code, Form, Handled, Part};
use std::alloc::Global;
use tx_pipe::{MapTo, Verb, verb_named};
use tx_text::{Bytes, NoMemory, PyText, Texts};
use tx_tree::Arg;
use tx_values::{MOST_DEPTH, MOST_WEIGHT, Names, Naming, Value, depth, weight};

// ---- sources

fn bytes_of(alloc: Global, text: &PyText) -> Result<Bytes, NoMemory>
    ensures { IfOk result (λ b. b ≡ bytes_of text.now) }
{
    let mut bytes = Bytes::new(alloc);
    bytes.push_all(text.as_str().as_bytes())?;
    Ok(bytes)
}

fn names_of(alloc: Global, texts: &[PyText]) -> Result<Names, NoMemory>
    ensures { IfOk result (λ c. c ≡ map bytes_of texts.now) }
{
    let mut done = Names::new(alloc);
    for text in texts {
        done.push(bytes_of(alloc, text)?)?;
    }
    Ok(done)
}

fn csv_file<'a>(file: &'a Arg) -> Option<Part<'a>>
    ensures { option_map part_of result ≡ forms.part_by_source verb.Csv (arg_of file.now ∷ []) }
{
    let Some(file) = text_in(file) else {
        return None;
    };
    let naming = Naming { names: None };
    Some(Part::Operator(Form::Csv { file, naming }))
}

fn csv_with_names<'a>(
    alloc: Global,
    file: &'a Arg,
    names: &'a Arg,
) -> Result<Option<Part<'a>>, NoMemory>
    ensures { IfOk result (λ o. option_map part_of o ≡ forms.part_by_source verb.Csv (arg_of file.now ∷ arg_of names.now ∷ [])) }
{
    let Some(file) = text_in(file) else {
        return Ok(None);
    };
    let Some(texts) = texts_in(alloc, names)? else {
        return Ok(None);
    };
    if texts.is_empty() {
        return Ok(None);
    }
    let naming = Naming {
        names: Some(names_of(alloc, texts.as_slice())?),
    };
    Ok(Some(Part::Operator(Form::Csv { file, naming })))
}

fn csv_part<'a>(alloc: Global, args: &'a [Arg]) -> Result<Option<Part<'a>>, NoMemory>
    ensures { IfOk result (λ o. option_map part_of o ≡ forms.part_by_source verb.Csv (map arg_of args.now)) }
{
    match args {
        [file] => Ok(csv_file(file)),
        [file, names] => csv_with_names(alloc, file, names),
        _ => Ok(None),
    }
}

/// The source that a word names.
pub(crate) fn source_at(word: &PyText) -> Option<Verb>
    ensures { result ≡ forms.source_at word.now }
{
    match verb_named(word) {
        Some(Verb::Csv) => Some(Verb::Csv),
        _ => None,
    }
}

/// What the head of a chain writes that has arguments.
pub(crate) fn head_part<'a>(
    alloc: Global,
    word: &PyText,
    args: &'a [Arg],
) -> Result<Option<Part<'a>>, NoMemory>
    ensures { IfOk result (λ o. option_map part_of o ≡ forms.head_part word.now (map arg_of args.now)) }
{
    match source_at(word) {
        Some(Verb::Csv) => csv_part(alloc, args),
        _ => Ok(None),
    }
}

// ---- lists of names

fn map_form<'a>(f: Code<'a>, to: MapTo) -> Option<Part<'a>>
    ensures { option_map part_of result ≡ forms.of_form (map_to (code_of f.entry) to) }
{
    let is_some = match &to {
        MapTo::Columns(names) => !names.is_empty(),
        MapTo::Column(_) => true,
    };
    if is_some {
        Some(Part::Operator(Form::Map { f, to }))
    } else {
        None
    }
}

fn select_form<'a>(names: Texts) -> Option<Part<'a>>
    ensures { option_map part_of result ≡ forms.of_form (select_columns names) }
{
    if names.is_empty() {
        None
    } else {
        Some(Part::Operator(Form::SelectColumns { names }))
    }
}

// ---- operators with a function

fn map_part<'a>(alloc: Global, args: &'a [Arg]) -> Result<Option<Part<'a>>, NoMemory>
    ensures { IfOk result (λ o. option_map part_of o ≡ forms.part_by verb.Map (map arg_of args.now)) }
{
    let [f, results] = args else {
        return Ok(None);
    };
    let Some(f) = code_in(f) else {
        return Ok(None);
    };
    match results_in(alloc, results)? {
        Some(to) => Ok(map_form(f, to)),
        None => Ok(None),
    }
}

fn filter_part<'a>(args: &'a [Arg]) -> Option<Part<'a>>
    ensures { option_map part_of result ≡ forms.part_by verb.Filter (map arg_of args.now) }
{
    let [f] = args else {
        return None;
    };
    match code_in(f) {
        Some(f) => Some(Part::Operator(Form::Filter { f })),
        None => None,
    }
}

fn with_column_part<'a>(args: &'a [Arg]) -> Option<Part<'a>>
    ensures { option_map part_of result ≡ forms.part_by verb.WithColumn (map arg_of args.now) }
{
    let [column, f] = args else {
        return None;
    };
    let Some(name) = text_in(column) else {
        return None;
    };
    match code_in(f) {
        Some(f) => Some(Part::Operator(Form::WithColumn { name, f })),
        None => None,
    }
}

fn map_column_part<'a>(args: &'a [Arg]) -> Option<Part<'a>>
    ensures { option_map part_of result ≡ forms.part_by verb.MapColumn (map arg_of args.now) }
{
    let [column, f] = args else {
        return None;
    };
    let Some(name) = text_in(column) else {
        return None;
    };
    match code_in(f) {
        Some(f) => Some(Part::Operator(Form::MapColumn { name, f })),
        None => None,
    }
}

fn aggregate_form<'a>(f: Code<'a>, init: Value, name: &'a PyText) -> Option<Part<'a>>
    requires { is_literal init ≡ true }
    ensures { option_map part_of result ≡ forms.of_form (aggregate (code_of f.entry) init name.now) }
{
    if is_in_limits(&init) {
        Some(Part::Operator(Form::Aggregate { f, init, name }))
    } else {
        None
    }
}

fn aggregate_part<'a>(alloc: Global, args: &'a [Arg]) -> Result<Option<Part<'a>>, NoMemory>
    ensures { IfOk result (λ o. option_map part_of o ≡ forms.part_by verb.Aggregate (map arg_of args.now)) }
{
    let [f, init, column] = args else {
        return Ok(None);
    };
    let Some(f) = code_in(f) else {
        return Ok(None);
    };
    let Some(init) = value_in(alloc, init)? else {
        return Ok(None);
    };
    let Some(name) = text_in(column) else {
        return Ok(None);
    };
    Ok(aggregate_form(f, init, name))
}

fn is_in_limits(value: &Value) -> bool
    ensures { result ≡ in_limits value.now }
{
    weight(value) <= MOST_WEIGHT && depth(value) <= MOST_DEPTH
}

// ---- operators without one

fn select_part<'a>(alloc: Global, args: &'a [Arg]) -> Result<Option<Part<'a>>, NoMemory>
    ensures { IfOk result (λ o. option_map part_of o ≡ forms.part_by verb.SelectColumns (map arg_of args.now)) }
{
    let [columns] = args else {
        return Ok(None);
    };
    match texts_in(alloc, columns)? {
        Some(names) => Ok(select_form(names)),
        None => Ok(None),
    }
}

fn rename_part<'a>(args: &'a [Arg]) -> Option<Part<'a>>
    ensures { option_map part_of result ≡ forms.part_by verb.RenameColumn (map arg_of args.now) }
{
    let [old, new_name] = args else {
        return None;
    };
    let Some(old) = text_in(old) else {
        return None;
    };
    match text_in(new_name) {
        Some(new_name) => Some(Part::Operator(Form::RenameColumn { old, new_name })),
        None => None,
    }
}

fn join_part<'a>(args: &'a [Arg]) -> Option<Part<'a>>
    ensures { option_map part_of result ≡ forms.part_by verb.Join (map arg_of args.now) }
{
    let [right, left_key, right_key] = args else {
        return None;
    };
    let Some(right) = word_in(right) else {
        return None;
    };
    let Some(left_key) = text_in(left_key) else {
        return None;
    };
    match text_in(right_key) {
        Some(right_key) => Some(Part::Operator(Form::Join {
            right,
            left_key,
            right_key,
        })),
        None => None,
    }
}

fn left_join_part<'a>(args: &'a [Arg]) -> Option<Part<'a>>
    ensures { option_map part_of result ≡ forms.part_by verb.LeftJoin (map arg_of args.now) }
{
    let [right, left_key, right_key] = args else {
        return None;
    };
    let Some(right) = word_in(right) else {
        return None;
    };
    let Some(left_key) = text_in(left_key) else {
        return None;
    };
    match text_in(right_key) {
        Some(right_key) => Some(Part::Operator(Form::LeftJoin {
            right,
            left_key,
            right_key,
        })),
        None => None,
    }
}

fn unique_part<'a>(args: &'a [Arg]) -> Option<Part<'a>>
    ensures { option_map part_of result ≡ forms.part_by verb.Unique (map arg_of args.now) }
{
    match args {
        [] => Some(Part::Operator(Form::Unique)),
        _ => None,
    }
}

fn to_csv_part<'a>(args: &'a [Arg]) -> Option<Part<'a>>
    ensures { option_map part_of result ≡ forms.part_by verb.ToCsv (map arg_of args.now) }
{
    let [file] = args else {
        return None;
    };
    match text_in(file) {
        Some(file) => Some(Part::Operator(Form::ToCsv { file })),
        None => None,
    }
}

// ---- handlers

fn resolve_part<'a>(args: &'a [Arg]) -> Option<Part<'a>>
    ensures { option_map part_of result ≡ forms.part_by verb.Resolve (map arg_of args.now) }
{
    let [class, f] = args else {
        return None;
    };
    let Some(class) = class_in(class) else {
        return None;
    };
    match code_in(f) {
        Some(f) => Some(Part::Handler(Handled::Resolve(class, f))),
        None => None,
    }
}

fn ignore_part<'a>(args: &'a [Arg]) -> Option<Part<'a>>
    ensures { option_map part_of result ≡ forms.part_by verb.Ignore (map arg_of args.now) }
{
    let [class] = args else {
        return None;
    };
    match class_in(class) {
        Some(class) => Some(Part::Handler(Handled::Ignore(class))),
        None => None,
    }
}

// ---- links

fn part_by<'a>(alloc: Global, verb: Verb, args: &'a [Arg]) -> Result<Option<Part<'a>>, NoMemory>
    ensures { IfOk result (λ o. option_map part_of o ≡ forms.part_by verb (map arg_of args.now)) }
{
    match verb {
        Verb::Csv => Ok(None),
        Verb::Map => map_part(alloc, args),
        Verb::Filter => Ok(filter_part(args)),
        Verb::WithColumn => Ok(with_column_part(args)),
        Verb::MapColumn => Ok(map_column_part(args)),
        Verb::SelectColumns => select_part(alloc, args),
        Verb::RenameColumn => Ok(rename_part(args)),
        Verb::Join => Ok(join_part(args)),
        Verb::LeftJoin => Ok(left_join_part(args)),
        Verb::Unique => Ok(unique_part(args)),
        Verb::Aggregate => aggregate_part(alloc, args),
        Verb::ToCsv => Ok(to_csv_part(args)),
        Verb::Resolve => Ok(resolve_part(args)),
        Verb::Ignore => Ok(ignore_part(args)),
    }
}

/// What a link writes.
pub(crate) fn link_part<'a>(
    alloc: Global,
    word: &PyText,
    args: &'a [Arg],
) -> Result<Option<Part<'a>>, NoMemory>
    ensures { IfOk result (λ o. option_map part_of o ≡ forms.link_part word.now (map arg_of args.now)) }
{
    match verb_named(word) {
        Some(verb) => part_by(alloc, verb, args),
        None => Ok(None),
    }
}

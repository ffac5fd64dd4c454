// A pipe as a line of text.
use std::alloc::AllocError;
use std::fmt::Write;
use tx_base::class_name;
use tx_names::{Bound, Role};
use tx_pipe::{Handler, MapTo, Node, Operator, Pipe};
use tx_text::{PyText, Texts};
use tx_values::{Names, Value};

fn put_text(out: &mut String, text: &PyText) -> Result<(), AllocError> {
    out.push(' ')?;
    out.push_str(text.as_str())
}

// Texts with commas between them.
fn put_texts(out: &mut String, texts: &Texts) -> Result<(), AllocError> {
    let mut ahead = ' ';
    for text in texts.as_slice() {
        out.push(ahead)?;
        out.push_str(text.as_str())?;
        ahead = ',';
    }
    Ok(())
}

// Names of columns, of ASCII.
fn put_names(out: &mut String, names: &Names) -> Result<(), AllocError> {
    let mut ahead = ' ';
    for name in names.as_slice() {
        out.push(ahead)?;
        for byte in name.as_slice() {
            out.push(char::from(*byte))?;
        }
        ahead = ',';
    }
    Ok(())
}

// What a function takes, how many slots it has, and the columns that it reads.
fn put_function(out: &mut String, function: &Bound) -> Result<(), AllocError> {
    match function.role() {
        Role::Plain(count) => write!(out, " {count}")?,
        Role::OfRow => out.push_str(" row")?,
        Role::OfAccRow => out.push_str(" acc")?,
    }
    let slots = function.slots();
    write!(out, " {slots}")?;
    put_texts(out, function.columns())
}

fn put_results(out: &mut String, to: &MapTo) -> Result<(), AllocError> {
    out.push_str(" >")?;
    match to {
        MapTo::Column(name) => put_text(out, name),
        MapTo::Columns(names) => {
            out.push_str(" of")?;
            put_texts(out, names)
        }
    }
}

fn put_value(out: &mut String, value: &Value) -> Result<(), AllocError> {
    match value {
        Value::Nil => out.push_str(" None"),
        Value::Int(number) => write!(out, " {number}"),
        Value::Text(text) => put_text(out, text),
        _ => out.push_str(" ?"),
    }
}

fn put_join(
    out: &mut String,
    right: u32,
    left_key: &PyText,
    right_key: &PyText,
) -> Result<(), AllocError> {
    write!(out, " {right}")?;
    put_text(out, left_key)?;
    put_text(out, right_key)
}

// The arguments of an operator: names, then numbers, then its function.
fn put_operator(out: &mut String, operator: &Operator) -> Result<(), AllocError> {
    match operator {
        Operator::Csv { file, naming } => {
            put_text(out, file)?;
            match &naming.names {
                Some(names) => put_names(out, names),
                None => Ok(()),
            }
        }
        Operator::Map { f, to } => {
            put_function(out, f)?;
            put_results(out, to)
        }
        Operator::Filter { f } => put_function(out, f),
        Operator::WithColumn { name, f } | Operator::MapColumn { name, f } => {
            put_text(out, name)?;
            put_function(out, f)
        }
        Operator::SelectColumns { names } => put_texts(out, names),
        Operator::RenameColumn { old, new_name } => {
            put_text(out, old)?;
            put_text(out, new_name)
        }
        Operator::Join {
            right,
            left_key,
            right_key,
        }
        | Operator::LeftJoin {
            right,
            left_key,
            right_key,
        } => put_join(out, *right, left_key, right_key),
        Operator::Unique => Ok(()),
        Operator::Aggregate { f, init, name } => {
            put_text(out, name)?;
            put_value(out, init)?;
            put_function(out, f)
        }
        Operator::ToCsv { file } => put_text(out, file),
    }
}

fn put_handler(out: &mut String, handler: &Handler) -> Result<(), AllocError> {
    match handler {
        Handler::Resolve(class, f) => {
            let class = class_name(*class);
            write!(out, ", resolve {class}")?;
            put_function(out, f)
        }
        Handler::Ignore(class) => {
            let class = class_name(*class);
            write!(out, ", ignore {class}")
        }
    }
}

// The word of an operator with its line and its input, its arguments, and its handlers.
fn put_node(out: &mut String, node: &Node) -> Result<(), AllocError> {
    let word = node.operator.verb().word();
    let (line, input) = (node.line, node.input);
    write!(out, "{word} @{line} <{input}")?;
    put_operator(out, &node.operator)?;
    for handler in node.handlers.as_slice() {
        put_handler(out, handler)?;
    }
    Ok(())
}

/// All operators in their order, with `; ` between them.
pub(super) fn put_pipe(out: &mut String, pipe: &Pipe) -> Result<(), AllocError> {
    let mut ahead = "";
    for node in pipe.as_slice() {
        out.push_str(ahead)?;
        put_node(out, node)?;
        ahead = "; ";
    }
    Ok(())
}

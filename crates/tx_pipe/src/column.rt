// The columns of each operator, and the first name that is asked for and absent.
ghost use Rattle.std.specs.Prelude.{◌≡◌, ℕ, [], ◌∷◌, ◌++◌, ◌+◌, ◌-◌, ◌^◌, ◌<◌, Some, None, Err, IfOk, OnOk, map, length};
ghost use Rattle.std.specs.Option.{option_copied};
ghost use Rattle.tx_name_set.specs.NameSet.{is_in, add, add_all};
ghost use Rattle.tx_names.specs.Scope.{Text};
ghost use Rattle.tx_names.specs.Faults.{first_some};
ghost use Rattle.tx_pipe.specs.Pipe.{node_of, pipe_of, handling_of, operator_of};
ghost use Rattle.tx_pipe.specs.Lawful.{Lawful};
ghost use Rattle.tx_pipe.specs.Column.{bytes_of, schema_at, of_results, renamed, without, schema_of, schemas, asked, first_absent, first_absent_from};
ghost use Rattle.tx_pipe.specs.Calls.Asking.{absent_among, first_name, handler_absent, handlers_absent, operation_absent};
ghost use Rattle.tx_tree.specs.Words.{same_text};
ghost use Rattle.tx_names.specs.Parts.{columns_of};
ghost use Rattle.tx_names.specs.Bind.{function_of};

use crate::index::Columns;
use crate::{Handler, MapTo, Node, Operator, Pipe};
use std::alloc::Global;
use thiserror::Error;
use tx_names::Bound;
use tx_text::{Bytes, NoMemory, PyText, Sequence, Texts};
use tx_values::Names;

/// The columns of each source, at the place of its operator; of an operator that is no source there are none.
pub type Headers = Sequence<Names>;

/// The columns of each operator.
pub type Schemas = Sequence<Names>;

/// Why there are no columns: an operator asks for a name that its input does not have.
#[derive(Debug, Drop, Error)]
pub enum ColumnsError {
    #[error("operator {operator}: a column that is not there")]
    Unknown { operator: u32, name: PyText },
    #[error("out of memory")]
    NoMemory,
}

impl From<NoMemory> for ColumnsError {
    ghost use Rattle.std.specs.Prelude.{◌≡◌};
    ghost use Rattle.tx_pipe.specs.declared.column.ColumnsError.TheVariants as error;

    ghost from_gives = { λ _ e. e ≡ error.NoMemory };

    fn from(_: NoMemory) -> Self {
        ColumnsError::NoMemory
    }
}

// ---- names of columns

// An entry: none where there is none.
fn entry_at(schemas: &Schemas, place: usize) -> &[Bytes]
    ensures { result.now ≡ schema_at schemas.now (place + 1) }
{
    match schemas.get(place) {
        Some(names) => names.as_slice(),
        None => &[],
    }
}

// The columns of an operator by its number.
fn schema_at(schemas: &Schemas, number: u32) -> &[Bytes]
    ensures { result.now ≡ schema_at schemas.now number }
{
    match schemas.get(number.saturating_sub(1) as usize) {
        Some(names) => names.as_slice(),
        None => &[],
    }
}

fn bytes_of(alloc: Global, name: &[u8]) -> Result<Bytes, NoMemory>
    ensures { IfOk result (λ b. b ≡ name.now) }
{
    let mut bytes = Bytes::new(alloc);
    bytes.push_all(name)?;
    Ok(bytes)
}

// Adds names behind others.
fn add_names(alloc: Global, names: &[Bytes], done: &mut Names) -> Result<(), NoMemory>
    ensures { OnOk result (done.new ≡ done.old ++ names.now) }
{
    for name in names {
        done.push(bytes_of(alloc, name.as_slice())?)?;
    }
    Ok(())
}

fn copy_names(alloc: Global, names: &[Bytes]) -> Result<Names, NoMemory>
    ensures { IfOk result (λ c. c ≡ names.now) }
{
    let mut done = Names::new(alloc);
    add_names(alloc, names, &mut done)?;
    Ok(done)
}

// The names that texts mean.
fn names_of(alloc: Global, texts: &[PyText]) -> Result<Names, NoMemory>
    ensures { IfOk result (λ c. c ≡ map bytes_of texts.now) }
{
    let mut done = Names::new(alloc);
    for text in texts {
        done.push(bytes_of(alloc, text.as_str().as_bytes())?)?;
    }
    Ok(done)
}

fn one_name(alloc: Global, text: &PyText) -> Result<Names, NoMemory>
    ensures { IfOk result (λ c. c ≡ bytes_of text.now ∷ []) }
{
    let mut done = Names::new(alloc);
    done.push(bytes_of(alloc, text.as_str().as_bytes())?)?;
    Ok(done)
}

// Whether a column has this name.
fn is_name(column: &Bytes, name: &PyText) -> bool
    ensures { result ≡ same_text (bytes_of name.now) column.now }
{
    name.as_str().as_bytes() == column.as_slice()
}

fn has_column(left: &[Bytes], name: &PyText) -> bool
    ensures { result ≡ is_in left.now (bytes_of name.now) }
{
    for column in left {
        if is_name(column, name) {
            return true;
        }
    }
    false
}

// The columns with one more, where there is none of its name.
fn with_column(alloc: Global, left: &[Bytes], name: &PyText) -> Result<Names, NoMemory>
    ensures { IfOk result (λ c. c ≡ add left.now (bytes_of name.now)) }
{
    let mut done = copy_names(alloc, left)?;
    if !has_column(left, name) {
        done.push(bytes_of(alloc, name.as_str().as_bytes())?)?;
    }
    Ok(done)
}

// The first column of a name has another one.
fn renamed(
    alloc: Global,
    left: &[Bytes],
    old: &PyText,
    new_name: &PyText,
) -> Result<Names, NoMemory>
    ensures { IfOk result (λ c. c ≡ renamed (bytes_of old.now) (bytes_of new_name.now) left.now) }
{
    let mut done = Names::new(alloc);
    let mut is_renamed = false;
    for column in left {
        if !is_renamed && is_name(column, old) {
            is_renamed = true;
            done.push(bytes_of(alloc, new_name.as_str().as_bytes())?)?;
        } else {
            done.push(bytes_of(alloc, column.as_slice())?)?;
        }
    }
    Ok(done)
}

// Adds columns, but for the first of a name.
fn add_without(
    alloc: Global,
    right: &[Bytes],
    key: &PyText,
    done: &mut Names,
) -> Result<(), NoMemory>
    ensures { OnOk result (done.new ≡ done.old ++ without (bytes_of key.now) right.now) }
{
    let mut is_met = false;
    for column in right {
        if !is_met && is_name(column, key) {
            is_met = true;
        } else {
            done.push(bytes_of(alloc, column.as_slice())?)?;
        }
    }
    Ok(())
}

// The columns of the left, and those of the right without its key.
fn joined(alloc: Global, left: &[Bytes], right: &[Bytes], key: &PyText) -> Result<Names, NoMemory>
    ensures { IfOk result (λ c. c ≡ left.now ++ without (bytes_of key.now) right.now) }
{
    let mut done = copy_names(alloc, left)?;
    add_without(alloc, right, key, &mut done)?;
    Ok(done)
}

// ---- the columns of operators

fn of_results(alloc: Global, to: &MapTo) -> Result<Names, NoMemory>
    ensures { IfOk result (λ c. c ≡ of_results to.now) }
{
    match to {
        MapTo::Columns(names) => names_of(alloc, names.as_slice()),
        MapTo::Column(name) => one_name(alloc, name),
    }
}

// The columns of an operator: `header` are those of its file, where it is a source.
fn schema_of(
    alloc: Global,
    node: &Node,
    header: &[Bytes],
    made: &Schemas,
) -> Result<Names, NoMemory>
    ensures { IfOk result (λ c. c ≡ schema_of header.now made.now (node_of node.now)) }
{
    let left = schema_at(made, node.input);
    match &node.operator {
        Operator::Csv { .. } => copy_names(alloc, header),
        Operator::Map { to, .. } => of_results(alloc, to),
        Operator::WithColumn { name, .. } => with_column(alloc, left, name),
        Operator::SelectColumns { names } => names_of(alloc, names.as_slice()),
        Operator::RenameColumn { old, new_name } => renamed(alloc, left, old, new_name),
        Operator::Join {
            right,
            right_key,
            ..
        }
        | Operator::LeftJoin {
            right,
            right_key,
            ..
        } => joined(alloc, left, schema_at(made, *right), right_key),
        Operator::Aggregate { name, .. } => one_name(alloc, name),
        _ => copy_names(alloc, left),
    }
}

fn schemas_of(alloc: Global, nodes: &[Node], headers: &Headers) -> Result<Schemas, NoMemory>
    ensures { IfOk result (λ s. s ≡ schemas headers.now (pipe_of nodes.now)) }
{
    let mut made = Schemas::new(alloc);
    for node in nodes {
        let header = entry_at(headers, made.len());
        let schema = schema_of(alloc, node, header, &made)?;
        made.push(schema)?;
    }
    Ok(made)
}

// ---- the names that are asked for

// The first of two, where there is one.
fn first_of<'a>(first: Option<&'a PyText>, second: Option<&'a PyText>) -> Option<&'a PyText>
    ensures { option_copied result ≡ first_some (option_copied first.entry) (option_copied second.entry) }
{
    match first {
        Some(name) => Some(name),
        None => second,
    }
}

// The first of some names that is not among the columns.
fn absent_in<'a>(columns: &Columns<'_>, names: &'a [PyText]) -> Option<&'a PyText>
    ensures { option_copied result ≡ absent_among columns.now names.now }
{
    for name in names {
        if !columns.has(name) {
            return Some(name);
        }
    }
    None
}

fn absent_one<'a>(columns: &Columns<'_>, name: &'a PyText) -> Option<&'a PyText>
    ensures { option_copied result ≡ absent_among columns.now (name.now ∷ []) }
{
    if columns.has(name) { None } else { Some(name) }
}

fn absent_by<'a>(columns: &Columns<'_>, f: &'a Bound) -> Option<&'a PyText>
    ensures { option_copied result ≡ absent_among columns.now (columns_of (function_of f.now)) }
{
    absent_in(columns, f.columns().as_slice())
}

// The key of the right input.
fn absent_in_right<'a>(
    alloc: Global,
    right: &[Bytes],
    key: &'a PyText,
) -> Result<Option<&'a PyText>, NoMemory>
    ensures { IfOk result (λ o. option_copied o ≡ absent_among right.now (key.now ∷ [])) }
{
    let columns = Columns::of(alloc, right)?;
    Ok(absent_one(&columns, key))
}

// The keys of a join, the left one first.
fn absent_in_join<'a>(
    alloc: Global,
    left: &Columns<'_>,
    left_key: &'a PyText,
    all: &Schemas,
    right: u32,
    right_key: &'a PyText,
) -> Result<Option<&'a PyText>, NoMemory>
    ensures { IfOk result (λ o. option_copied o ≡ first_some (absent_among left.now (left_key.now ∷ [])) (absent_among (schema_at all.now right) (right_key.now ∷ []))) }
{
    let second = absent_in_right(alloc, schema_at(all, right), right_key)?;
    Ok(first_of(absent_one(left, left_key), second))
}

// A column, and then those that a function reads.
fn absent_one_or_by<'a>(left: &Columns<'_>, name: &'a PyText, f: &'a Bound) -> Option<&'a PyText>
    ensures { option_copied result ≡ first_some (absent_among left.now (name.now ∷ [])) (absent_among left.now (columns_of (function_of f.now))) }
{
    first_of(absent_one(left, name), absent_by(left, f))
}

// By an operator with its arguments; `left` are the columns of its input.
fn absent_for<'a>(
    alloc: Global,
    operator: &'a Operator,
    left: &Columns<'_>,
    all: &Schemas,
) -> Result<Option<&'a PyText>, NoMemory>
    ensures { IfOk result (λ o. option_copied o ≡ operation_absent all.now left.now (operator_of operator.now)) }
{
    match operator {
        Operator::Map { f, .. } => Ok(absent_by(left, f)),
        Operator::Filter { f } => Ok(absent_by(left, f)),
        Operator::WithColumn { f, .. } => Ok(absent_by(left, f)),
        Operator::Aggregate { f, .. } => Ok(absent_by(left, f)),
        Operator::MapColumn { name, f } => Ok(absent_one_or_by(left, name, f)),
        Operator::SelectColumns { names } => Ok(absent_in(left, names.as_slice())),
        Operator::RenameColumn { old, .. } => Ok(absent_one(left, old)),
        Operator::Join {
            right,
            left_key,
            right_key,
        } => absent_in_join(alloc, left, left_key, all, *right, right_key),
        Operator::LeftJoin {
            right,
            left_key,
            right_key,
        } => absent_in_join(alloc, left, left_key, all, *right, right_key),
        _ => Ok(None),
    }
}

// By the function of a handler.
fn absent_in_handler<'a>(left: &Columns<'_>, handler: &'a Handler) -> Option<&'a PyText>
    ensures { option_copied result ≡ handler_absent left.now (handling_of handler.now) }
{
    match handler {
        Handler::Resolve(_, f) => absent_by(left, f),
        Handler::Ignore(_) => None,
    }
}

// By the functions of handlers.
fn absent_in_handlers<'a>(left: &Columns<'_>, handlers: &'a [Handler]) -> Option<&'a PyText>
    ensures { option_copied result ≡ handlers_absent left.now (map handling_of handlers.now) }
{
    for handler in handlers {
        if let Some(name) = absent_in_handler(left, handler) {
            return Some(name);
        }
    }
    None
}

// The columns of an operator's input.
fn input_columns<'a>(alloc: Global, node: &Node, all: &'a Schemas) -> Result<Columns<'a>, NoMemory>
    ensures { IfOk result (λ c. c ≡ add_all [] (schema_at all.now node.now.input)) }
{
    Columns::of(alloc, schema_at(all, node.input))
}

// By an operator, and then by its handlers; `left` are the columns of its input.
fn absent_by_node<'a>(
    alloc: Global,
    node: &'a Node,
    left: &Columns<'_>,
    all: &Schemas,
) -> Result<Option<&'a PyText>, NoMemory>
    ensures { IfOk result (λ o. option_copied o ≡ first_some (operation_absent all.now left.now (operator_of node.now.operator)) (handlers_absent left.now (map handling_of node.now.handlers))) }
{
    let first = absent_for(alloc, &node.operator, left, all)?;
    let second = absent_in_handlers(left, node.handlers.as_slice());
    Ok(first_of(first, second))
}

fn absent_of<'a>(
    alloc: Global,
    node: &'a Node,
    all: &Schemas,
) -> Result<Option<&'a PyText>, NoMemory>
    ensures { IfOk result (λ o. option_copied o ≡ first_name (asked all.now (node_of node.now))) }
{
    let left = input_columns(alloc, node, all)?;
    absent_by_node(alloc, node, &left, all)
}

// The first name that is absent, with the number of the operator.
#[tactic(auto, using(crate::proofs::Absent::firsts))]
fn first_absent(
    alloc: Global,
    nodes: &[Node],
    all: &Schemas,
) -> Result<Option<(u32, PyText)>, NoMemory>
    requires { length nodes.now < 2 ^ 32 - 1 }
    ensures { IfOk result (λ o. o ≡ first_absent_from 1 all.now (pipe_of nodes.now)) }
{
    let mut number: u32 = 1;
    for node in nodes {
        if let Some(name) = absent_of(alloc, node, all)? {
            return Ok(Some((number, name.slice(0, name.len())?)));
        }
        number += 1;
    }
    Ok(None)
}

/// The columns of each operator of a lawful pipe, where the columns of each source are these. Each name that an operator
/// asks for must be there: the first that is not, in the order of the operators, their arguments and their handlers, is told.
pub fn columns(alloc: Global, p: &Pipe, h: &Headers) -> Result<Schemas, ColumnsError>
    requires lawful { Lawful (pipe_of p.now) }
    ensures ok { OnOk result (first_absent h.now (pipe_of p.now) ≡ None) }
    ensures schemas { IfOk result (λ s. s ≡ schemas h.now (pipe_of p.now)) }
    ensures unknown { (operator : ℕ) (name : Text) → result ≡ Err (ColumnsError.Unknown operator name) → first_absent h.now (pipe_of p.now) ≡ Some (operator, name) }
{
    let made = schemas_of(alloc, p.as_slice(), h)?;
    match first_absent(alloc, p.as_slice(), &made)? {
        Some((operator, name)) => Err(ColumnsError::Unknown { operator, name }),
        None => Ok(made),
    }
}

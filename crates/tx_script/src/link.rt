// Functions, operators and handlers, linked with what the blocks ahead define.
ghost use Rattle.std.specs.Prelude.{◌≡◌, ℕ, ◌∷◌, ◌++◌, [], Ok, Err, None, Some, Option, map, option_map, length, IfOk, OnOk};
ghost use Rattle.tx_tree.specs.Tree.{block_of, tree_of};
ghost use Rattle.tx_names.specs.Bind.{defs_of, function_of, bound_block, bound_lambda};
ghost use Rattle.tx_pipe.specs.Pipe as pipes;
ghost use Rattle.tx_pipe.specs.Pipe.{operator_of, handling_of, csv, map_to, filter, with_column, map_column, select_columns, rename_column, join, left_join, aggregate, to_csv};
ghost use Rattle.tx_script.specs.Written as written;
ghost use Rattle.tx_script.specs.declared.fault.ScriptFault as told;
ghost use Rattle.tx_script.specs.Linked as linked;
ghost use Rattle.tx_script.specs.Calls.View.{code_of, form_of, handled_of, word_of};
ghost use Rattle.tx_script.specs.Calls.Behind.{AreLinked, ahead_of, told_error};

use crate::ahead::{Ahead, fault_at};
use crate::form::copy_text;
use crate::written::{Code, Form, Handled, Named};
use crate::{ScriptError, ScriptKind};
use std::alloc::Global;
use tx_names::{BindError, Bound, Role, bind, bind_lambda, faults_are_told};
use tx_pipe::{Handler, MapTo, Operator};
use tx_text::{Bytes, NoMemory, PyText, Texts};
use tx_tree::{Block, Expr};
use tx_values::{Names, Naming, Value, copy};

// ---- functions

// A number of parameters past 32 bits takes more memory than there is.
fn role_or(role: Option<Role>, count: usize) -> Result<Role, NoMemory>
    ensures { IfOk result (λ r. r ≡ linked.role_or role count) }
{
    match role {
        Some(role) => Ok(role),
        None => match u32::try_from(count) {
            Ok(count) => Ok(Role::Plain(count)),
            Err(_) => Err(NoMemory),
        },
    }
}

fn told(e: BindError) -> ScriptError
    ensures { result ≡ told_error e }
{
    match e {
        BindError::Unknown { line } => fault_at(ScriptKind::Name, line),
        BindError::Arity { line } => fault_at(ScriptKind::Arity, line),
        BindError::Recursive { line } => fault_at(ScriptKind::Recursive, line),
        BindError::RowUse { line } => fault_at(ScriptKind::RowUse, line),
        BindError::NoMemory => ScriptError::NoMemory,
    }
}

fn link_lambda(
    alloc: Global,
    ahead: &Ahead<'_>,
    role: Role,
    line: u32,
    params: &Texts,
    body: &Expr,
) -> Result<Bound, ScriptError>
    ensures ok { IfOk result (λ f. linked.told (bound_lambda (defs_of ahead.now.defs) role line params.now (tree_of body.now)) ≡ Ok (function_of f)) }
    ensures fault { (f : told.ScriptFault) → result ≡ Err (ScriptError.Fault f) → linked.told (bound_lambda (defs_of ahead.now.defs) role line params.now (tree_of body.now)) ≡ Err f }
{
    faults_are_told();
    match bind_lambda(alloc, params, body, &ahead.defs, role, line) {
        Ok(f) => Ok(f),
        Err(e) => Err(told(e)),
    }
}

/// The function of a def, which stands at this block.
pub(crate) fn link_block(
    alloc: Global,
    ahead: &Ahead<'_>,
    role: Role,
    line: u32,
    block: &Block,
) -> Result<Bound, ScriptError>
    ensures ok { IfOk result (λ f. linked.told (bound_block (defs_of ahead.now.defs) role line (block_of block.now)) ≡ Ok (function_of f)) }
    ensures fault { (f : told.ScriptFault) → result ≡ Err (ScriptError.Fault f) → linked.told (bound_block (defs_of ahead.now.defs) role line (block_of block.now)) ≡ Err f }
{
    faults_are_told();
    match bind(alloc, block, &ahead.defs, role, line) {
        Ok(f) => Ok(f),
        Err(e) => Err(told(e)),
    }
}

/// How many parameters a def has.
pub(crate) fn size_of_def(block: &Block) -> usize
    ensures { result ≡ linked.size_of (block_of block.now) }
{
    match block {
        Block::Def { params, .. } => params.len(),
        _ => 0,
    }
}

/// A role, or plain parameters of any number.
pub(crate) fn plain_role(count: usize) -> Result<Role, NoMemory>
    ensures { IfOk result (λ r. r ≡ linked.role_or None count) }
{
    role_or(None, count)
}

fn link_named(
    alloc: Global,
    ahead: &Ahead<'_>,
    role: Option<Role>,
    line: u32,
    name: &PyText,
) -> Result<Bound, ScriptError>
    requires { AreLinked ahead.now }
    ensures ok { IfOk result (λ f. linked.linked_code (ahead_of ahead.now) role (written.named line name.now) ≡ Ok (function_of f)) }
    ensures fault { (f : told.ScriptFault) → result ≡ Err (ScriptError.Fault f) → linked.linked_code (ahead_of ahead.now) role (written.named line name.now) ≡ Err f }
{
    let Some(def) = ahead.def_of(name) else {
        return Err(fault_at(ScriptKind::Name, line));
    };
    let role = role_or(role, size_of_def(def.block))?;
    match def.function_in(role) {
        Some(function) => Ok(tx_names::copy(function)?),
        None => link_block(alloc, ahead, role, line, def.block),
    }
}

fn link_written(
    alloc: Global,
    ahead: &Ahead<'_>,
    role: Option<Role>,
    line: u32,
    params: &Texts,
    body: &Expr,
) -> Result<Bound, ScriptError>
    ensures ok { IfOk result (λ f. linked.linked_code (ahead_of ahead.now) role (written.lambda line params.now (tree_of body.now)) ≡ Ok (function_of f)) }
    ensures fault { (f : told.ScriptFault) → result ≡ Err (ScriptError.Fault f) → linked.linked_code (ahead_of ahead.now) role (written.lambda line params.now (tree_of body.now)) ≡ Err f }
{
    let role = role_or(role, params.len())?;
    link_lambda(alloc, ahead, role, line, params, body)
}

fn link_code(
    alloc: Global,
    ahead: &Ahead<'_>,
    role: Option<Role>,
    code: &Code<'_>,
) -> Result<Bound, ScriptError>
    requires { AreLinked ahead.now }
    ensures ok { IfOk result (λ f. linked.linked_code (ahead_of ahead.now) role (code_of code.now) ≡ Ok (function_of f)) }
    ensures fault { (f : told.ScriptFault) → result ≡ Err (ScriptError.Fault f) → linked.linked_code (ahead_of ahead.now) role (code_of code.now) ≡ Err f }
{
    match code {
        Code::Lambda { line, params, body } => {
            link_written(alloc, ahead, role, *line, params, body)
        }
        Code::Def { line, name } => link_named(alloc, ahead, role, *line, name),
    }
}

// ---- copies of arguments

fn copy_texts(alloc: Global, texts: &[PyText]) -> Result<Texts, NoMemory>
    ensures { IfOk result (λ c. c ≡ texts.now) }
{
    let mut done = Texts::new(alloc);
    for text in texts {
        done.push(copy_text(text)?)?;
    }
    Ok(done)
}

fn copy_bytes(alloc: Global, bytes: &[u8]) -> Result<Bytes, NoMemory>
    ensures { IfOk result (λ c. c ≡ bytes.now) }
{
    let mut done = Bytes::new(alloc);
    done.push_all(bytes)?;
    Ok(done)
}

fn copy_names(alloc: Global, names: &[Bytes]) -> Result<Names, NoMemory>
    ensures { IfOk result (λ c. c ≡ names.now) }
{
    let mut done = Names::new(alloc);
    for name in names {
        done.push(copy_bytes(alloc, name.as_slice())?)?;
    }
    Ok(done)
}

fn copy_naming(alloc: Global, naming: &Naming) -> Result<Naming, NoMemory>
    ensures { IfOk result (λ c. c.names ≡ naming.now.names) }
{
    match &naming.names {
        Some(names) => Ok(Naming {
            names: Some(copy_names(alloc, names.as_slice())?),
        }),
        None => Ok(Naming { names: None }),
    }
}

fn copy_results(alloc: Global, to: &MapTo) -> Result<MapTo, NoMemory>
    ensures { IfOk result (λ c. c ≡ to.now) }
{
    match to {
        MapTo::Columns(names) => Ok(MapTo::Columns(copy_texts(alloc, names.as_slice())?)),
        MapTo::Column(name) => Ok(MapTo::Column(copy_text(name)?)),
    }
}

// ---- operators

fn csv_operator(alloc: Global, file: &PyText, naming: &Naming) -> Result<Operator, NoMemory>
    ensures { IfOk result (λ o. operator_of o ≡ csv file.now naming.now.names) }
{
    let file = copy_text(file)?;
    let naming = copy_naming(alloc, naming)?;
    Ok(Operator::Csv { file, naming })
}

fn select_operator(alloc: Global, names: &Texts) -> Result<Operator, NoMemory>
    ensures { IfOk result (λ o. operator_of o ≡ select_columns names.now) }
{
    let names = copy_texts(alloc, names.as_slice())?;
    Ok(Operator::SelectColumns { names })
}

fn rename_operator(old: &PyText, new_name: &PyText) -> Result<Operator, NoMemory>
    ensures { IfOk result (λ o. operator_of o ≡ rename_column old.now new_name.now) }
{
    let old = copy_text(old)?;
    let new_name = copy_text(new_name)?;
    Ok(Operator::RenameColumn { old, new_name })
}

fn to_csv_operator(file: &PyText) -> Result<Operator, NoMemory>
    ensures { IfOk result (λ o. operator_of o ≡ to_csv file.now) }
{
    let file = copy_text(file)?;
    Ok(Operator::ToCsv { file })
}

fn join_operator(right: u32, left_key: &PyText, right_key: &PyText) -> Result<Operator, NoMemory>
    ensures { IfOk result (λ o. operator_of o ≡ join right left_key.now right_key.now) }
{
    let left_key = copy_text(left_key)?;
    let right_key = copy_text(right_key)?;
    Ok(Operator::Join {
        right,
        left_key,
        right_key,
    })
}

fn left_join_operator(
    right: u32,
    left_key: &PyText,
    right_key: &PyText,
) -> Result<Operator, NoMemory>
    ensures { IfOk result (λ o. operator_of o ≡ left_join right left_key.now right_key.now) }
{
    let left_key = copy_text(left_key)?;
    let right_key = copy_text(right_key)?;
    Ok(Operator::LeftJoin {
        right,
        left_key,
        right_key,
    })
}

fn map_operator(alloc: Global, f: Bound, to: &MapTo) -> Result<Operator, NoMemory>
    ensures { IfOk result (λ o. operator_of o ≡ map_to (function_of f) to.now) }
{
    let to = copy_results(alloc, to)?;
    Ok(Operator::Map { f, to })
}

fn with_column_operator(name: &PyText, f: Bound) -> Result<Operator, NoMemory>
    ensures { IfOk result (λ o. operator_of o ≡ with_column name.now (function_of f)) }
{
    let name = copy_text(name)?;
    Ok(Operator::WithColumn { name, f })
}

fn map_column_operator(name: &PyText, f: Bound) -> Result<Operator, NoMemory>
    ensures { IfOk result (λ o. operator_of o ≡ map_column name.now (function_of f)) }
{
    let name = copy_text(name)?;
    Ok(Operator::MapColumn { name, f })
}

fn aggregate_operator(
    alloc: Global,
    f: Bound,
    init: &Value,
    name: &PyText,
) -> Result<Operator, NoMemory>
    ensures { IfOk result (λ o. operator_of o ≡ aggregate (function_of f) init.now name.now) }
{
    let init = copy(alloc, init)?;
    let name = copy_text(name)?;
    Ok(Operator::Aggregate { f, init, name })
}

// ---- their roles

/// What the function of an operator takes.
pub(crate) fn role_in(form: &Form<'_>) -> Option<Role>
    ensures { result ≡ pipes.role_in (form_of form.now) }
{
    match form {
        Form::Map { .. } | Form::Filter { .. } | Form::WithColumn { .. } => Some(Role::OfRow),
        Form::MapColumn { .. } => Some(Role::Plain(1)),
        Form::Aggregate { .. } => Some(Role::OfAccRow),
        _ => None,
    }
}

// ---- operators with their functions and inputs

fn link_map(
    alloc: Global,
    ahead: &Ahead<'_>,
    code: &Code<'_>,
    to: &MapTo,
) -> Result<Operator, ScriptError>
    requires { AreLinked ahead.now }
    ensures ok { IfOk result (λ o. linked.linked_operator (ahead_of ahead.now) (map_to (code_of code.now) to.now) ≡ Ok (operator_of o)) }
    ensures fault { (f : told.ScriptFault) → result ≡ Err (ScriptError.Fault f) → linked.linked_operator (ahead_of ahead.now) (map_to (code_of code.now) to.now) ≡ Err f }
{
    let f = link_code(alloc, ahead, Some(Role::OfRow), code)?;
    Ok(map_operator(alloc, f, to)?)
}

fn link_filter(alloc: Global, ahead: &Ahead<'_>, code: &Code<'_>) -> Result<Operator, ScriptError>
    requires { AreLinked ahead.now }
    ensures ok { IfOk result (λ o. linked.linked_operator (ahead_of ahead.now) (filter (code_of code.now)) ≡ Ok (operator_of o)) }
    ensures fault { (f : told.ScriptFault) → result ≡ Err (ScriptError.Fault f) → linked.linked_operator (ahead_of ahead.now) (filter (code_of code.now)) ≡ Err f }
{
    let f = link_code(alloc, ahead, Some(Role::OfRow), code)?;
    Ok(Operator::Filter { f })
}

fn link_with_column(
    alloc: Global,
    ahead: &Ahead<'_>,
    name: &PyText,
    code: &Code<'_>,
) -> Result<Operator, ScriptError>
    requires { AreLinked ahead.now }
    ensures ok { IfOk result (λ o. linked.linked_operator (ahead_of ahead.now) (with_column name.now (code_of code.now)) ≡ Ok (operator_of o)) }
    ensures fault { (f : told.ScriptFault) → result ≡ Err (ScriptError.Fault f) → linked.linked_operator (ahead_of ahead.now) (with_column name.now (code_of code.now)) ≡ Err f }
{
    let f = link_code(alloc, ahead, Some(Role::OfRow), code)?;
    Ok(with_column_operator(name, f)?)
}

fn link_map_column(
    alloc: Global,
    ahead: &Ahead<'_>,
    name: &PyText,
    code: &Code<'_>,
) -> Result<Operator, ScriptError>
    requires { AreLinked ahead.now }
    ensures ok { IfOk result (λ o. linked.linked_operator (ahead_of ahead.now) (map_column name.now (code_of code.now)) ≡ Ok (operator_of o)) }
    ensures fault { (f : told.ScriptFault) → result ≡ Err (ScriptError.Fault f) → linked.linked_operator (ahead_of ahead.now) (map_column name.now (code_of code.now)) ≡ Err f }
{
    let f = link_code(alloc, ahead, Some(Role::Plain(1)), code)?;
    Ok(map_column_operator(name, f)?)
}

fn link_aggregate(
    alloc: Global,
    ahead: &Ahead<'_>,
    code: &Code<'_>,
    init: &Value,
    name: &PyText,
) -> Result<Operator, ScriptError>
    requires { AreLinked ahead.now }
    ensures ok { IfOk result (λ o. linked.linked_operator (ahead_of ahead.now) (aggregate (code_of code.now) init.now name.now) ≡ Ok (operator_of o)) }
    ensures fault { (f : told.ScriptFault) → result ≡ Err (ScriptError.Fault f) → linked.linked_operator (ahead_of ahead.now) (aggregate (code_of code.now) init.now name.now) ≡ Err f }
{
    let f = link_code(alloc, ahead, Some(Role::OfAccRow), code)?;
    Ok(aggregate_operator(alloc, f, init, name)?)
}

fn link_join(
    ahead: &Ahead<'_>,
    right: &Named<'_>,
    left_key: &PyText,
    right_key: &PyText,
) -> Result<Operator, ScriptError>
    ensures ok { IfOk result (λ o. linked.linked_operator (ahead_of ahead.now) (join (word_of right.now) left_key.now right_key.now) ≡ Ok (operator_of o)) }
    ensures fault { (f : told.ScriptFault) → result ≡ Err (ScriptError.Fault f) → linked.linked_operator (ahead_of ahead.now) (join (word_of right.now) left_key.now right_key.now) ≡ Err f }
{
    let end = ahead.end_of(right)?;
    Ok(join_operator(end, left_key, right_key)?)
}

fn link_left_join(
    ahead: &Ahead<'_>,
    right: &Named<'_>,
    left_key: &PyText,
    right_key: &PyText,
) -> Result<Operator, ScriptError>
    ensures ok { IfOk result (λ o. linked.linked_operator (ahead_of ahead.now) (left_join (word_of right.now) left_key.now right_key.now) ≡ Ok (operator_of o)) }
    ensures fault { (f : told.ScriptFault) → result ≡ Err (ScriptError.Fault f) → linked.linked_operator (ahead_of ahead.now) (left_join (word_of right.now) left_key.now right_key.now) ≡ Err f }
{
    let end = ahead.end_of(right)?;
    Ok(left_join_operator(end, left_key, right_key)?)
}

/// An operator with its function and its inputs.
pub(crate) fn link_form(
    alloc: Global,
    ahead: &Ahead<'_>,
    form: &Form<'_>,
) -> Result<Operator, ScriptError>
    requires { AreLinked ahead.now }
    ensures ok { IfOk result (λ o. linked.linked_operator (ahead_of ahead.now) (form_of form.now) ≡ Ok (operator_of o)) }
    ensures fault { (f : told.ScriptFault) → result ≡ Err (ScriptError.Fault f) → linked.linked_operator (ahead_of ahead.now) (form_of form.now) ≡ Err f }
{
    match form {
        Form::Csv { file, naming } => Ok(csv_operator(alloc, file, naming)?),
        Form::Map { f, to } => link_map(alloc, ahead, f, to),
        Form::Filter { f } => link_filter(alloc, ahead, f),
        Form::WithColumn { name, f } => link_with_column(alloc, ahead, name, f),
        Form::MapColumn { name, f } => link_map_column(alloc, ahead, name, f),
        Form::SelectColumns { names } => Ok(select_operator(alloc, names)?),
        Form::RenameColumn { old, new_name } => Ok(rename_operator(old, new_name)?),
        Form::Join {
            right,
            left_key,
            right_key,
        } => link_join(ahead, right, left_key, right_key),
        Form::LeftJoin {
            right,
            left_key,
            right_key,
        } => link_left_join(ahead, right, left_key, right_key),
        Form::Unique => Ok(Operator::Unique),
        Form::Aggregate { f, init, name } => link_aggregate(alloc, ahead, f, init, name),
        Form::ToCsv { file } => Ok(to_csv_operator(file)?),
    }
}

// ---- handlers

/// A handler with its function, which takes what its operator's takes.
pub(crate) fn link_handler(
    alloc: Global,
    ahead: &Ahead<'_>,
    role: Option<Role>,
    handled: &Handled<'_>,
) -> Result<Handler, ScriptError>
    requires { AreLinked ahead.now }
    ensures ok { IfOk result (λ h. linked.linked_handler (ahead_of ahead.now) role (handled_of handled.now) ≡ Ok (handling_of h)) }
    ensures fault { (f : told.ScriptFault) → result ≡ Err (ScriptError.Fault f) → linked.linked_handler (ahead_of ahead.now) role (handled_of handled.now) ≡ Err f }
{
    match handled {
        Handled::Resolve(class, f) => {
            Ok(Handler::Resolve(*class, link_code(alloc, ahead, role, f)?))
        }
        Handled::Ignore(class) => Ok(Handler::Ignore(*class)),
    }
}

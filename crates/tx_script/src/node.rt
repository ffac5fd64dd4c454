// The pipe of a script, block by block.
ghost use Rattle.std.specs.Prelude.{◌≡◌, ◌<◌, ◌+◌, false, drop, Ok, Err, None, Some, Option, map, option_map, length, IfOk, OnOk, IfSome};
ghost use Rattle.tx_tree.specs.Tree.{block_of, chain_of};
ghost use Rattle.tx_name_set.specs.NameSet.{is_in};
ghost use Rattle.tx_names.specs.Bind.{defs_of, function_of, bound_block};
ghost use Rattle.tx_pipe.specs.Pipe.{handling_of, pipe_of};
ghost use Rattle.tx_script.specs.declared.fault.ScriptFault as told;
ghost use Rattle.tx_script.specs.Forms.{start_of};
ghost use Rattle.tx_script.specs.Linked as linked;
ghost use Rattle.tx_script.specs.Calls.View.{form_of, link_of, word_of, entry_view};
ghost use Rattle.tx_script.specs.Calls.Behind.{block_in, IsFunctionOf, HasFunctions, AreLinked, ahead_of, with_def_of, with_pipeline_of};

use crate::ScriptError;
use crate::ahead::{Ahead, DefBlock};
use crate::form::copy_text;
use crate::link::{link_block, link_form, link_handler, plain_role, role_in, size_of_def};
use crate::written::{Entry, Form, Link, Named, Part};
use std::alloc::Global;
use std::rc::Rc;
use tx_names::{Bound, Def, Role};
use tx_pipe::{Handlers, Node, Pipe};
use tx_text::{NoMemory, PyText};
use tx_tree::{Block, Chain};

// ---- chains

/// The pipeline that a chain begins with, where its head has no arguments.
pub(crate) fn start_of(chain: &Chain) -> Option<Named<'_>>
    ensures { option_map word_of result ≡ start_of (chain_of chain.now) }
{
    match &chain.head.args {
        Some(_) => None,
        None => Some(Named {
            line: chain.head.word.line,
            name: &chain.head.word.text,
        }),
    }
}

// The handlers in front of a chain's links, to before the next operator.
fn link_handlers(
    alloc: Global,
    ahead: &Ahead<'_>,
    role: Option<Role>,
    links: &[Link<'_>],
) -> Result<Handlers, ScriptError>
    requires { AreLinked ahead.now }
    ensures ok { IfOk result (λ hs. linked.linked_handlers (ahead_of ahead.now) role (map link_of links.now) ≡ Ok (map handling_of hs)) }
    ensures fault { (f : told.ScriptFault) → result ≡ Err (ScriptError.Fault f) → linked.linked_handlers (ahead_of ahead.now) role (map link_of links.now) ≡ Err f }
{
    let mut done = Handlers::new(alloc);
    for link in links {
        let Part::Handler(handled) = &link.part else {
            return Ok(done);
        };
        done.push(link_handler(alloc, ahead, role, handled)?)?;
    }
    Ok(done)
}

// How many operators there are, which is the number of the last one. Past 32 bits they take more memory than there is.
fn number_of(pipe: &Pipe) -> Result<u32, NoMemory>
    ensures { IfOk result (λ n. n ≡ length pipe.now) }
{
    match u32::try_from(pipe.len()) {
        Ok(number) => Ok(number),
        Err(_) => Err(NoMemory),
    }
}

// Adds an operator with its handlers, which are in front of the links behind it.
fn add_operator(
    alloc: Global,
    ahead: &Ahead<'_>,
    form: &Form<'_>,
    line: u32,
    input: u32,
    behind: &[Link<'_>],
    pipe: &mut Pipe,
) -> Result<(), ScriptError>
    requires { AreLinked ahead.now }
    ensures ok { OnOk result (linked.with_operator (ahead_of ahead.now) (pipe_of pipe.old) input line (form_of form.now) (map link_of behind.now) ≡ Ok (pipe_of pipe.new)) }
    ensures fault { (f : told.ScriptFault) → result ≡ Err (ScriptError.Fault f) → linked.with_operator (ahead_of ahead.now) (pipe_of pipe.old) input line (form_of form.now) (map link_of behind.now) ≡ Err f }
{
    let operator = link_form(alloc, ahead, form)?;
    let handlers = link_handlers(alloc, ahead, role_in(form), behind)?;
    pipe.push(Node {
        operator,
        input,
        handlers,
        line,
    })?;
    Ok(())
}

// Adds what a link is, where it is an operator, and gives the number of the input of the next one.
fn add_link(
    alloc: Global,
    ahead: &Ahead<'_>,
    link: &Link<'_>,
    input: u32,
    behind: &[Link<'_>],
    pipe: &mut Pipe,
) -> Result<u32, ScriptError>
    requires { AreLinked ahead.now }
    ensures ok { IfOk result (λ n. linked.nodes_by (ahead_of ahead.now) (pipe_of pipe.old) input (link_of link.now).line (link_of link.now).part (map link_of behind.now) (λ p end. Ok (p, end)) ≡ Ok (pipe_of pipe.new, n)) }
    ensures fault { (f : told.ScriptFault) → result ≡ Err (ScriptError.Fault f) → linked.nodes_by (ahead_of ahead.now) (pipe_of pipe.old) input (link_of link.now).line (link_of link.now).part (map link_of behind.now) (λ p end. Ok (p, end)) ≡ Err f }
{
    match &link.part {
        Part::Operator(form) => {
            add_operator(alloc, ahead, form, link.line, input, behind, pipe)?;
            Ok(number_of(pipe)?)
        }
        Part::Handler(_) => Ok(input),
    }
}

fn links_behind<'a, 'b>(links: &'a [Link<'b>], at: usize) -> &'a [Link<'b>]
    requires { at < length links.now }
    ensures { result.now ≡ drop (at + 1) links.entry.now }
{
    &links[at + 1..]
}

fn add_links(
    alloc: Global,
    ahead: &Ahead<'_>,
    links: &[Link<'_>],
    start: u32,
    pipe: &mut Pipe,
) -> Result<u32, ScriptError>
    requires { AreLinked ahead.now }
    ensures ok { IfOk result (λ n. linked.linked_nodes (ahead_of ahead.now) (pipe_of pipe.old) start (map link_of links.now) ≡ Ok (pipe_of pipe.new, n)) }
    ensures fault { (f : told.ScriptFault) → result ≡ Err (ScriptError.Fault f) → linked.linked_nodes (ahead_of ahead.now) (pipe_of pipe.old) start (map link_of links.now) ≡ Err f }
{
    let mut input = start;
    for at in 0..links.len() {
        let behind = links_behind(links, at);
        input = match add_link(alloc, ahead, &links[at], input, behind, pipe) {
            Ok(number) => number,
            Err(e) => return Err(e),
        };
    }
    Ok(input)
}

fn link_start(ahead: &Ahead<'_>, start: Option<Named<'_>>) -> Result<u32, ScriptError>
    ensures ok { IfOk result (λ n. linked.linked_start (ahead_of ahead.now) (option_map word_of start.entry) ≡ Ok n) }
    ensures fault { (f : told.ScriptFault) → result ≡ Err (ScriptError.Fault f) → linked.linked_start (ahead_of ahead.now) (option_map word_of start.entry) ≡ Err f }
{
    match start {
        Some(word) => ahead.end_of(&word),
        None => Ok(0),
    }
}

// Adds the operators of a chain, and gives the number of the one that it ends in.
fn add_chain(
    alloc: Global,
    ahead: &Ahead<'_>,
    chain: &Chain,
    links: &[Link<'_>],
    pipe: &mut Pipe,
) -> Result<u32, ScriptError>
    requires { AreLinked ahead.now }
    ensures ok { IfOk result (λ n. linked.linked_chain (ahead_of ahead.now) (pipe_of pipe.old) (start_of (chain_of chain.now)) (map link_of links.now) ≡ Ok (pipe_of pipe.new, n)) }
    ensures fault { (f : told.ScriptFault) → result ≡ Err (ScriptError.Fault f) → linked.linked_chain (ahead_of ahead.now) (pipe_of pipe.old) (start_of (chain_of chain.now)) (map link_of links.now) ≡ Err f }
{
    let input = link_start(ahead, start_of(chain))?;
    link_handlers(alloc, ahead, None, links)?;
    add_links(alloc, ahead, links, input, pipe)
}

// ---- blocks

/// The role in which a def of so many parameters takes a row.
fn row_role(count: usize) -> Option<Role> {
    match count {
        1 => Some(Role::OfRow),
        2 => Some(Role::OfAccRow),
        _ => None,
    }
}

// The function of a def that takes a row. A def that can not be used so is no fault until it is.
fn link_of_row(
    alloc: Global,
    ahead: &Ahead<'_>,
    line: u32,
    block: &Block,
) -> Result<Option<Bound>, NoMemory>
    ensures { IfOk result (λ o. IfSome o (IsFunctionOf (defs_of ahead.now.defs) (block_of block.now))) }
{
    let Some(role) = row_role(size_of_def(block)) else {
        return Ok(None);
    };
    match link_block(alloc, ahead, role, line, block) {
        Ok(function) => Ok(Some(function)),
        Err(ScriptError::Fault(_)) => Ok(None),
        Err(ScriptError::NoMemory) => Err(NoMemory),
    }
}

// A def, which as such takes values.
fn link_def<'a>(
    alloc: Global,
    ahead: &Ahead<'_>,
    line: u32,
    block: &'a Block,
) -> Result<DefBlock<'a>, ScriptError>
    ensures block { IfOk result (λ d. block_in d ≡ block_of block.now) }
    ensures kept { IfOk result (HasFunctions (defs_of ahead.now.defs)) }
    ensures ok { IfOk result (λ d. linked.told (bound_block (defs_of ahead.now.defs) (linked.role_or None (linked.size_of (block_of block.now))) line (block_of block.now)) ≡ Ok (function_of d.of_values)) }
    ensures fault { (f : told.ScriptFault) → result ≡ Err (ScriptError.Fault f) → linked.told (bound_block (defs_of ahead.now.defs) (linked.role_or None (linked.size_of (block_of block.now))) line (block_of block.now)) ≡ Err f }
{
    let role = plain_role(size_of_def(block))?;
    let of_values = link_block(alloc, ahead, role, line, block)?;
    let of_row = link_of_row(alloc, ahead, line, block)?;
    Ok(DefBlock {
        block,
        of_values,
        of_row,
    })
}

fn push_def<'a>(
    alloc: Global,
    ahead: &mut Ahead<'a>,
    name: &PyText,
    def: DefBlock<'a>,
) -> Result<(), NoMemory>
    requires kept { AreLinked ahead.old }
    requires functions { HasFunctions (defs_of ahead.old.defs) def }
    ensures with_def { OnOk result (ahead_of ahead.new ≡ linked.with_def (ahead_of ahead.old) name.now (function_of def.entry.of_values) (block_in def.entry)) }
    ensures kept { OnOk result (AreLinked ahead.new) }
{
    let function = Rc::new(alloc, tx_names::copy(&def.of_values)?)?;
    let name = copy_text(name)?;
    ahead.defs.push(Def { name, function })?;
    ahead.blocks.push(def)?;
    Ok(())
}

fn push_pipeline<'a>(ahead: &mut Ahead<'a>, name: &'a PyText, end: u32) -> Result<(), NoMemory>
    requires free { is_in ahead.old.pipelines name.now ≡ false }
    requires kept { AreLinked ahead.old }
    ensures with_pipeline { OnOk result (ahead_of ahead.new ≡ linked.with_pipeline (ahead_of ahead.old) name.now end) }
    ensures kept { OnOk result (AreLinked ahead.new) }
{
    ahead.pipelines.add(name)?;
    ahead.ends.push(end)?;
    Ok(())
}

// A def, whose name is this.
fn add_def<'a>(
    alloc: Global,
    ahead: &mut Ahead<'a>,
    line: u32,
    name: &PyText,
    block: &'a Block,
) -> Result<(), ScriptError>
    requires { AreLinked ahead.old }
    ensures ok { OnOk result (with_def_of (ahead_of ahead.old) line name.now (block_of block.now) ≡ Ok (ahead_of ahead.new)) }
    ensures kept { OnOk result (AreLinked ahead.new) }
    ensures fault { (f : told.ScriptFault) → result ≡ Err (ScriptError.Fault f) → with_def_of (ahead_of ahead.old) line name.now (block_of block.now) ≡ Err f }
{
    ahead.free_at(line, name)?;
    let def = link_def(alloc, ahead, line, block)?;
    Ok(push_def(alloc, ahead, name, def)?)
}

fn add_pipeline<'a>(
    alloc: Global,
    ahead: &mut Ahead<'a>,
    line: u32,
    name: &'a PyText,
    chain: &Chain,
    links: &[Link<'_>],
    pipe: &mut Pipe,
) -> Result<(), ScriptError>
    requires { AreLinked ahead.old }
    ensures ok { OnOk result (with_pipeline_of (ahead_of ahead.old) (pipe_of pipe.old) line name.now (start_of (chain_of chain.now)) (map link_of links.now) ≡ Ok (ahead_of ahead.new, pipe_of pipe.new)) }
    ensures kept { OnOk result (AreLinked ahead.new) }
    ensures fault { (f : told.ScriptFault) → result ≡ Err (ScriptError.Fault f) → with_pipeline_of (ahead_of ahead.old) (pipe_of pipe.old) line name.now (start_of (chain_of chain.now)) (map link_of links.now) ≡ Err f }
{
    ahead.free_at(line, name)?;
    let end = add_chain(alloc, ahead, chain, links, pipe)?;
    Ok(push_pipeline(ahead, name, end)?)
}

fn add_entry<'a>(
    alloc: Global,
    ahead: &mut Ahead<'a>,
    entry: &Entry<'a>,
    pipe: &mut Pipe,
) -> Result<(), ScriptError>
    requires { AreLinked ahead.old }
    ensures ok { OnOk result (linked.linked_block (ahead_of ahead.old) (pipe_of pipe.old) (entry_view entry.now).block (entry_view entry.now).links ≡ Ok (ahead_of ahead.new, pipe_of pipe.new)) }
    ensures kept { OnOk result (AreLinked ahead.new) }
    ensures fault { (f : told.ScriptFault) → result ≡ Err (ScriptError.Fault f) → linked.linked_block (ahead_of ahead.old) (pipe_of pipe.old) (entry_view entry.now).block (entry_view entry.now).links ≡ Err f }
{
    let links = entry.links.as_slice();
    match entry.block {
        Block::Def { line, name, .. } => add_def(alloc, ahead, *line, name, entry.block),
        Block::Named { line, name, chain } => {
            add_pipeline(alloc, ahead, *line, name, chain, links, pipe)
        }
        Block::Alone(chain) => {
            add_chain(alloc, ahead, chain, links, pipe)?;
            Ok(())
        }
    }
}

/// The pipe of a script, or the first name in fault.
pub(crate) fn pipe_of_entries<'a>(alloc: Global, entries: &[Entry<'a>]) -> Result<Pipe, ScriptError>
    ensures ok { IfOk result (λ p. linked.linked_script (map entry_view entries.now) ≡ Ok (pipe_of p)) }
    ensures fault { (f : told.ScriptFault) → result ≡ Err (ScriptError.Fault f) → linked.linked_script (map entry_view entries.now) ≡ Err f }
{
    let mut ahead = Ahead::new(alloc);
    let mut pipe = Pipe::new(alloc);
    for entry in entries {
        if let Err(e) = add_entry(alloc, &mut ahead, entry, &mut pipe) {
            return Err(e);
        }
    }
    Ok(pipe)
}

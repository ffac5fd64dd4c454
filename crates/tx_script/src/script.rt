// Reading a script.
ghost use Rattle.std.specs.Prelude.{◌≡◌, Ok, Err, None, Some, map, IfOk, OnOk};
ghost use Rattle.tx_tree.specs.Tree.{block_of};
ghost use Rattle.tx_pipe.specs.Pipe.{pipe_of};
ghost use Rattle.tx_pipe.specs.Lawful.{Lawful};
ghost use Rattle.tx_script.specs.declared.fault.ScriptFault as told;
ghost use Rattle.tx_script.specs.Linked.{linked_script};
ghost use Rattle.tx_script.specs.Accepted.{Accepted, Refused};
ghost use Rattle.tx_script.specs.Calls.View.{entry_view};
ghost use Rattle.tx_script.specs.Calls.Reading.{number_fault, use_fault, link_fault};

use crate::check::{handler_place, no_end, too_many_defs, too_many_operators};
use crate::entry::entries_of;
use crate::files::output_is_input;
use crate::laws::accepted_pipes_are_lawful;
use crate::node::pipe_of_entries;
use crate::read::blocks_of;
use crate::uses::pipe_use;
use crate::written::Entry;
use crate::{ScriptError, ScriptFault};
use std::alloc::Global;
use tx_pipe::Pipe;
use tx_text::{Bytes, PyText};
use tx_tree::Block;

fn check(found: Option<ScriptFault>) -> Result<(), ScriptError>
    ensures ok { OnOk result (found ≡ None) }
    ensures fault { (f : told.ScriptFault) → result ≡ Err (ScriptError.Fault f) → found ≡ Some f }
{
    match found {
        Some(fault) => Err(ScriptError::Fault(fault)),
        None => Ok(()),
    }
}

fn check_numbers(blocks: &[Block], entries: &[Entry<'_>]) -> Result<(), ScriptError>
    ensures ok { OnOk result (number_fault (map block_of blocks.now) (map entry_view entries.now) ≡ None) }
    ensures fault { (f : told.ScriptFault) → result ≡ Err (ScriptError.Fault f) → number_fault (map block_of blocks.now) (map entry_view entries.now) ≡ Some f }
{
    check(too_many_operators(entries))?;
    check(too_many_defs(blocks))
}

// The checks that follow that of the names.
fn check_uses(alloc: Global, own: &PyText, entries: &[Entry<'_>]) -> Result<(), ScriptError>
    ensures ok { OnOk result (use_fault own.now (map entry_view entries.now) ≡ None) }
    ensures fault { (f : told.ScriptFault) → result ≡ Err (ScriptError.Fault f) → use_fault own.now (map entry_view entries.now) ≡ Some f }
{
    check(handler_place(entries))?;
    check(pipe_use(alloc, entries)?)?;
    check(no_end(entries))?;
    check(output_is_input(alloc, own, entries)?)
}

// The pipe of blocks whose links all have a form.
fn pipe_of_links(
    alloc: Global,
    own: &PyText,
    blocks: &[Block],
    entries: &[Entry<'_>],
) -> Result<Pipe, ScriptError>
    ensures passes { OnOk result (link_fault own.now (map block_of blocks.now) (map entry_view entries.now) ≡ None) }
    ensures linked { IfOk result (λ p. linked_script (map entry_view entries.now) ≡ Ok (pipe_of p)) }
    ensures fault { (f : told.ScriptFault) → result ≡ Err (ScriptError.Fault f) → link_fault own.now (map block_of blocks.now) (map entry_view entries.now) ≡ Some f }
{
    check_numbers(blocks, entries)?;
    let pipe = pipe_of_entries(alloc, entries)?;
    check_uses(alloc, own, entries)?;
    Ok(pipe)
}

/// The pipe of a script, where no check refuses it; else the first check that does, at its first place. `own` is the name of
/// the script's file. `csv("a").tocsv("b")` gives two operators.
pub fn read_script(alloc: Global, own: &PyText, b: &Bytes) -> Result<Pipe, ScriptError>
    ensures pipe { IfOk result (λ p. Accepted own.now b.now (pipe_of p)) }
    ensures lawful { IfOk result (λ p. Lawful (pipe_of p)) }
    ensures fault { (f : told.ScriptFault) → result ≡ Err (ScriptError.Fault f) → Refused own.now b.now f }
{
    accepted_pipes_are_lawful();
    let blocks = blocks_of(alloc, b.as_slice())?;
    let entries = entries_of(alloc, blocks.as_slice())?;
    pipe_of_links(alloc, own, blocks.as_slice(), entries.as_slice())
}

// Checks of blocks and their links: numbers, places of handlers, uses of pipelines, the end, and files.
ghost use Rattle.std.specs.Prelude.{◌≡◌, [], ◌∷◌, ◌++◌, None, Some, Option, map, option_map, filter_map, slice_get, is_some, not, IfOk, OnOk, length, ◌<◌, ◌^◌};
ghost use Rattle.std.specs.Option.{option_copied};
ghost use Rattle.std.specs.List.{flat_map};
ghost use Rattle.tx_tree.specs.Tree.{block_of};
ghost use Rattle.tx_pipe.specs.Pipe as pipes;
ghost use Rattle.tx_script.specs.Linked as linked;
ghost use Rattle.tx_script.specs.Forms.{places_of};
ghost use Rattle.tx_script.specs.declared.fault.ScriptKind.TheVariants as kind;
ghost use Rattle.tx_pipe.specs.Lawful.{most_operators};
ghost use Rattle.tx_script.specs.Checks as checks;
ghost use Rattle.tx_script.specs.Calls.Ends.{inner_faults};
ghost use Rattle.tx_script.specs.Calls.View.{form_of, handled_of, part_of, link_of, entry_view};

use crate::link::role_in;
use crate::written::{Entry, Form, Handled, Link, Part};
use crate::{ScriptFault, ScriptKind};
use tx_tree::Block;

/// The most operators and handlers of a script.
const MOST_OPERATORS: usize = 64;

/// The most defs of a script.
const MOST_DEFS: usize = 64;

fn fault(kind: ScriptKind, line: u32) -> ScriptFault
    ensures { result ≡ linked.at kind line }
{
    ScriptFault { kind, line }
}

// ---- places of handlers

/// Whether an operator writes.
fn is_output(form: &Form<'_>) -> bool
    ensures { result ≡ is_some (pipes.output_file (form_of form.now)) }
{
    matches!(form, Form::ToCsv { .. })
}

fn allows(form: &Form<'_>, handled: &Handled<'_>) -> bool
    ensures { result ≡ pipes.allows (form_of form.now) (handled_of handled.now) }
{
    match handled {
        Handled::Resolve(_, _) => role_in(form).is_some(),
        Handled::Ignore(_) => !is_output(form),
    }
}

fn stray_handler(links: &[Link<'_>]) -> Option<ScriptFault>
    ensures { result ≡ checks.stray_handler None (map link_of links.now) }
{
    let mut owner: Option<&Form<'_>> = None;
    for link in links {
        match &link.part {
            Part::Operator(form) => owner = Some(form),
            Part::Handler(handled) => {
                if !may_stand(owner, handled) {
                    return Some(fault(ScriptKind::HandlerPlace, link.line));
                }
            }
        }
    }
    None
}

fn may_stand(owner: Option<&Form<'_>>, handled: &Handled<'_>) -> bool
    ensures { result ≡ checks.may_stand (option_map form_of (option_copied owner.entry)) (handled_of handled.now) }
{
    match owner {
        Some(form) => allows(form, handled),
        None => false,
    }
}

/// The first handler that may not stand where it stands.
pub(crate) fn handler_place(entries: &[Entry<'_>]) -> Option<ScriptFault>
    ensures { result ≡ checks.handler_place (map entry_view entries.now) }
{
    for entry in entries {
        if let Some(found) = stray_handler(entry.links.as_slice()) {
            return Some(found);
        }
    }
    None
}

// ---- the end

fn writes(part: &Part<'_>) -> bool
    ensures { result ≡ checks.writes (part_of part.now) }
{
    match part {
        Part::Operator(form) => is_output(form),
        Part::Handler(_) => false,
    }
}

// The first link that writes.
fn end_in(links: &[Link<'_>]) -> Option<ScriptFault>
    ensures { result ≡ checks.end_in (map link_of links.now) }
{
    for link in links {
        if writes(&link.part) {
            return Some(fault(ScriptKind::NoEnd, link.line));
        }
    }
    None
}

fn line_of(block: &Block) -> u32
    ensures { result ≡ checks.line_of (block_of block.now) }
{
    match block {
        Block::Def { line, .. } => *line,
        Block::Named { line, .. } => *line,
        Block::Alone(chain) => chain.line,
    }
}

fn is_unnamed(block: &Block) -> bool
    ensures { result ≡ checks.is_unnamed (block_of block.now) }
{
    matches!(block, Block::Alone(_))
}

fn ends_in_output(links: &[Link<'_>]) -> bool
    ensures { result ≡ checks.ends_in_output (map link_of links.now) }
{
    match links.split_last() {
        Some((last, _ahead)) => writes(&last.part),
        None => false,
    }
}

fn end_ahead(links: &[Link<'_>]) -> Option<ScriptFault>
    ensures { result ≡ checks.end_ahead (map link_of links.now) }
{
    match links.split_last() {
        Some((_last, ahead)) => end_in(ahead),
        None => None,
    }
}

fn last_fault(entry: &Entry<'_>) -> Option<ScriptFault>
    ensures { result ≡ checks.last_fault (entry_view entry.now) }
{
    let links = entry.links.as_slice();
    if is_unnamed(entry.block) && ends_in_output(links) {
        end_ahead(links)
    } else {
        Some(fault(ScriptKind::NoEnd, line_of(entry.block)))
    }
}

fn inner_fault(entry: &Entry<'_>) -> Option<ScriptFault>
    ensures { result ≡ checks.inner_fault (entry_view entry.now) }
{
    if is_unnamed(entry.block) {
        Some(fault(ScriptKind::NoEnd, line_of(entry.block)))
    } else {
        end_in(entry.links.as_slice())
    }
}

// The first fault of blocks of which none is the last one.
fn inner_faults(entries: &[Entry<'_>]) -> Option<ScriptFault>
    ensures { result ≡ inner_faults (map entry_view entries.now) }
{
    for entry in entries {
        if let Some(found) = inner_fault(entry) {
            return Some(found);
        }
    }
    None
}

/// Why a script does not end as it must.
pub(crate) fn no_end(entries: &[Entry<'_>]) -> Option<ScriptFault>
    ensures { result ≡ checks.no_end (map entry_view entries.now) }
{
    let Some((last, ahead)) = entries.split_last() else {
        return Some(fault(ScriptKind::NoEnd, 0));
    };
    match inner_faults(ahead) {
        Some(found) => Some(found),
        None => last_fault(last),
    }
}

// ---- numbers

/// The operator or handler by which there are more than the most.
pub(crate) fn too_many_operators(entries: &[Entry<'_>]) -> Option<ScriptFault>
    ensures { result ≡ option_map (λ x. linked.at kind.TooManyOperators x.line) (slice_get (flat_map (λ e. e.links) (map entry_view entries.now)) most_operators) }
{
    let mut left = MOST_OPERATORS;
    for entry in entries {
        let links = entry.links.as_slice();
        if left < links.len() {
            return Some(fault(ScriptKind::TooManyOperators, links[left].line));
        }
        left -= links.len();
    }
    None
}

/// The def by which there are more than the most.
pub(crate) fn too_many_defs(blocks: &[Block]) -> Option<ScriptFault>
    ensures { result ≡ checks.too_many_defs (map block_of blocks.now) }
{
    let mut left = MOST_DEFS;
    for block in blocks {
        if let Block::Def { line, .. } = block {
            if left == 0 {
                return Some(fault(ScriptKind::TooManyDefs, *line));
            }
            left -= 1;
        }
    }
    None
}

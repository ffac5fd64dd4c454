// The blocks of a script with the operators and handlers of their chains.
ghost use Rattle.std.specs.Prelude.{◌≡◌, ◌∷◌, ◌++◌, [], Ok, Err, map, option_map, OnOk, IfOk};
ghost use Rattle.tx_tree.specs.Tree.{block_of, args_of, link_of as link_tree, chain_of};
ghost use Rattle.tx_script.specs.declared.fault.ScriptFault as told;
ghost use Rattle.tx_script.specs.Forms.{head_places, link_place, chain_places, places_of};
ghost use Rattle.tx_script.specs.Calls.View.{link_of, part_of, entry_view};
ghost use Rattle.tx_script.specs.Calls.Formed.{with_link, formed_behind, with_entry, entries_behind};

use crate::operator::{head_part, link_part};
use crate::written::{Entries, Entry, Link, Links, Part};
use crate::{ScriptError, ScriptFault, ScriptKind};
use std::alloc::Global;
use tx_tree::{Block, Chain, Head};

// Adds what a word writes, which must have a form.
fn add<'a>(line: u32, part: Option<Part<'a>>, links: &mut Links<'a>) -> Result<(), ScriptError>
    ensures ok { OnOk result (with_link (map link_of links.old) line (option_map part_of part.entry) ≡ Ok (map link_of links.new)) }
    ensures fault { (f : told.ScriptFault) → result ≡ Err (ScriptError.Fault f) → with_link (map link_of links.old) line (option_map part_of part.entry) ≡ Err f }
{
    let Some(part) = part else {
        return Err(ScriptError::Fault(ScriptFault {
            kind: ScriptKind::Operator,
            line,
        }));
    };
    links.push(Link { line, part })?;
    Ok(())
}

fn add_head<'a>(alloc: Global, head: &'a Head, links: &mut Links<'a>) -> Result<(), ScriptError>
    ensures ok { OnOk result (formed_behind (map link_of links.old) (head_places head.now.word (option_map args_of head.now.args)) ≡ Ok (map link_of links.new)) }
    ensures fault { (f : told.ScriptFault) → result ≡ Err (ScriptError.Fault f) → formed_behind (map link_of links.old) (head_places head.now.word (option_map args_of head.now.args)) ≡ Err f }
{
    let Some(args) = &head.args else {
        return Ok(());
    };
    let part = head_part(alloc, &head.word.text, args.items.as_slice())?;
    add(head.word.line, part, links)
}

fn add_link<'a>(
    alloc: Global,
    link: &'a tx_tree::Link,
    links: &mut Links<'a>,
) -> Result<(), ScriptError>
    ensures ok { OnOk result (with_link (map link_of links.old) (link_place (link_tree link.now)).0 (link_place (link_tree link.now)).1 ≡ Ok (map link_of links.new)) }
    ensures fault { (f : told.ScriptFault) → result ≡ Err (ScriptError.Fault f) → with_link (map link_of links.old) (link_place (link_tree link.now)).0 (link_place (link_tree link.now)).1 ≡ Err f }
{
    let part = link_part(alloc, &link.word.text, link.args.items.as_slice())?;
    add(link.word.line, part, links)
}

fn add_links<'a>(
    alloc: Global,
    written: &'a [tx_tree::Link],
    links: &mut Links<'a>,
) -> Result<(), ScriptError>
    ensures ok { OnOk result (formed_behind (map link_of links.old) (map link_place (map link_tree written.now)) ≡ Ok (map link_of links.new)) }
    ensures fault { (f : told.ScriptFault) → result ≡ Err (ScriptError.Fault f) → formed_behind (map link_of links.old) (map link_place (map link_tree written.now)) ≡ Err f }
{
    for link in written {
        add_link(alloc, link, links)?;
    }
    Ok(())
}

#[tactic(auto, using(crate::proofs::Formed::goes_on))]
fn links_of<'a>(alloc: Global, chain: &'a Chain) -> Result<Links<'a>, ScriptError>
    ensures ok { IfOk result (λ ls. formed_behind [] (chain_places (chain_of chain.now)) ≡ Ok (map link_of ls)) }
    ensures fault { (f : told.ScriptFault) → result ≡ Err (ScriptError.Fault f) → formed_behind [] (chain_places (chain_of chain.now)) ≡ Err f }
{
    let mut links = Links::new(alloc);
    add_head(alloc, &chain.head, &mut links)?;
    add_links(alloc, chain.links.as_slice(), &mut links)?;
    Ok(links)
}

fn links_of_block<'a>(alloc: Global, block: &'a Block) -> Result<Links<'a>, ScriptError>
    ensures ok { IfOk result (λ ls. formed_behind [] (places_of (block_of block.now)) ≡ Ok (map link_of ls)) }
    ensures fault { (f : told.ScriptFault) → result ≡ Err (ScriptError.Fault f) → formed_behind [] (places_of (block_of block.now)) ≡ Err f }
{
    match block {
        Block::Def { .. } => Ok(Links::new(alloc)),
        Block::Named { chain, .. } => links_of(alloc, chain),
        Block::Alone(chain) => links_of(alloc, chain),
    }
}

fn add_entry<'a>(alloc: Global, block: &'a Block, done: &mut Entries<'a>) -> Result<(), ScriptError>
    ensures ok { OnOk result (with_entry (map entry_view done.old) (block_of block.now) ≡ Ok (map entry_view done.new)) }
    ensures fault { (f : told.ScriptFault) → result ≡ Err (ScriptError.Fault f) → with_entry (map entry_view done.old) (block_of block.now) ≡ Err f }
{
    let links = links_of_block(alloc, block)?;
    done.push(Entry { block, links })?;
    Ok(())
}

/// The blocks with their links, or the first word of a chain that with its arguments has no form.
pub(crate) fn entries_of<'a>(alloc: Global, blocks: &'a [Block]) -> Result<Entries<'a>, ScriptError>
    ensures ok { IfOk result (λ es. entries_behind [] (map block_of blocks.now) ≡ Ok (map entry_view es)) }
    ensures fault { (f : told.ScriptFault) → result ≡ Err (ScriptError.Fault f) → entries_behind [] (map block_of blocks.now) ≡ Err f }
{
    let mut done = Entries::new(alloc);
    for block in blocks {
        add_entry(alloc, block, &mut done)?;
    }
    Ok(done)
}

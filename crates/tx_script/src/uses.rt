// Uses of pipelines, counted from the end of the script.
ghost use Rattle.std.specs.Prelude.{◌≡◌, ℕ, List, ◌∷◌, ◌++◌, ◌==◌, not, map, option_map, count_by, IfOk, OnOk};
ghost use Rattle.tx_tree.specs.Tree.{block_of};
ghost use Rattle.tx_tree.specs.Words.{same_text};
ghost use Rattle.tx_names.specs.Faults.{first_some};
ghost use Rattle.tx_script.specs.Calls.Counts.{Counts, link_names, head_names};
ghost use Rattle.std.specs.List.{flat_map};
ghost use Rattle.tx_script.specs.Written as written;
ghost use Rattle.tx_script.specs.declared.fault.ScriptKind.TheVariants as kind;
ghost use Rattle.tx_script.specs.Linked as linked;
ghost use Rattle.tx_script.specs.Checks as checks;
ghost use Rattle.tx_script.specs.Calls.View.{word_of, link_of, entry_view};

use crate::node::start_of;
use crate::written::{Entry, Form, Link, Named, Part};
use crate::{ScriptFault, ScriptKind};
use std::alloc::Global;
use tx_name_set::Names;
use tx_text::{NoMemory, PyText};
use tx_tree::Block;

/// The names that are used, and those that are used more than once.
#[derive(Drop)]
struct Uses<'a> {
    once: Names<'a>,
    twice: Names<'a>,
}

impl<'a> Uses<'a> {
    fn add(&mut self, name: &'a PyText) -> Result<(), NoMemory>
        ensures { (more : List (List ℕ)) → Counts self.old.once self.old.twice more → OnOk result (Counts self.new.once self.new.twice (name.now ∷ more)) }
    {
        let is_new = self.once.add(name)?;
        if !is_new {
            self.twice.add(name)?;
        }
        Ok(())
    }

    fn is_used_once(&self, name: &PyText) -> bool
        ensures { (names : List (List ℕ)) → Counts self.now.once self.now.twice names → result ≡ (count_by (same_text name.now) names == 1) }
    {
        self.once.has(name) && !self.twice.has(name)
    }

    fn add_link(&mut self, link: &Link<'a>) -> Result<(), NoMemory>
        ensures { (names : List (List ℕ)) → Counts self.old.once self.old.twice names → OnOk result (Counts self.new.once self.new.twice (link_names (link_of link.now) ++ names)) }
    {
        match &link.part {
            Part::Operator(Form::Join { right, .. } | Form::LeftJoin { right, .. }) => {
                self.add(right.name)
            }
            _ => Ok(()),
        }
    }

    fn add_head(&mut self, block: &'a Block) -> Result<(), NoMemory>
        ensures { (names : List (List ℕ)) → Counts self.old.once self.old.twice names → OnOk result (Counts self.new.once self.new.twice (head_names (block_of block.now) ++ names)) }
    {
        match head_of(block) {
            Some(word) => self.add(word.name),
            None => Ok(()),
        }
    }

    fn add_links(&mut self, links: &[Link<'a>]) -> Result<(), NoMemory>
        ensures { (names : List (List ℕ)) → Counts self.old.once self.old.twice names → OnOk result (Counts self.new.once self.new.twice (flat_map link_names (map link_of links.now) ++ names)) }
    {
        for link in links {
            self.add_link(link)?;
        }
        Ok(())
    }

    fn add_entry(&mut self, entry: &Entry<'a>) -> Result<(), NoMemory>
        ensures { (names : List (List ℕ)) → Counts self.old.once self.old.twice names → OnOk result (Counts self.new.once self.new.twice (checks.names_in (entry_view entry.now) ++ names)) }
    {
        self.add_head(entry.block)?;
        self.add_links(entry.links.as_slice())?;
        Ok(())
    }
}

// The pipeline that the chain of a block begins with.
fn head_of(block: &Block) -> Option<Named<'_>>
    ensures { option_map word_of result ≡ checks.head_of (block_of block.now) }
{
    match block {
        Block::Def { .. } => None,
        Block::Named { chain, .. } => start_of(chain),
        Block::Alone(chain) => start_of(chain),
    }
}

fn misused_unless(is_used_once: bool, line: u32) -> Option<ScriptFault>
    ensures { result ≡ checks.when (not is_used_once) (linked.at kind.PipeUse line) }
{
    if is_used_once {
        None
    } else {
        Some(ScriptFault {
            kind: ScriptKind::PipeUse,
            line,
        })
    }
}

// A pipeline that the blocks behind it use not exactly once.
fn misused(block: &Block, uses: &Uses<'_>) -> Option<ScriptFault>
    ensures { (behind : List written.Entry) → Counts uses.now.once uses.now.twice (flat_map checks.names_in behind) → result ≡ checks.misused (block_of block.now) behind }
{
    match block {
        Block::Def { .. } => None,
        Block::Named { line, name, .. } => misused_unless(uses.is_used_once(name), *line),
        Block::Alone(_) => None,
    }
}

fn first_of(first: Option<ScriptFault>, second: Option<ScriptFault>) -> Option<ScriptFault>
    ensures { result ≡ first_some first second }
{
    match first {
        Some(found) => Some(found),
        None => second,
    }
}

// Adds the names that a block uses to those that the blocks behind it use, and tells the first pipeline of these blocks that is
// misused, where `found` is that of the blocks behind it.
fn use_of<'a>(
    entry: &Entry<'a>,
    uses: &mut Uses<'a>,
    found: Option<ScriptFault>,
) -> Result<Option<ScriptFault>, NoMemory>
    ensures counts { (behind : List written.Entry) → Counts uses.old.once uses.old.twice (flat_map checks.names_in behind) → OnOk result (Counts uses.new.once uses.new.twice (flat_map checks.names_in (entry_view entry.now ∷ behind))) }
    ensures tells { (behind : List written.Entry) → Counts uses.old.once uses.old.twice (flat_map checks.names_in behind) → found ≡ checks.pipe_use behind → IfOk result (λ o. o ≡ checks.pipe_use (entry_view entry.now ∷ behind)) }
{
    let misuse = misused(entry.block, uses);
    uses.add_entry(entry)?;
    Ok(first_of(misuse, found))
}

/// The first pipeline that is used not exactly once.
pub(crate) fn pipe_use<'a>(
    alloc: Global,
    entries: &[Entry<'a>],
) -> Result<Option<ScriptFault>, NoMemory>
    ensures { IfOk result (λ o. o ≡ checks.pipe_use (map entry_view entries.now)) }
{
    let once = Names::new(alloc);
    let twice = Names::new(alloc);
    let mut uses = Uses { once, twice };
    let mut found = None;
    let mut at = entries.len();
    'backwards: while at > 0 {
        at -= 1;
        found = use_of(&entries[at], &mut uses, found)?;
    }
    Ok(found)
}

// What is timed: the binding of a def's names.
ghost use Rattle.std.specs.Prelude.{◌≤◌, length};
ghost use Rattle.tx_tokens.specs.Tokens.{most_characters};

use std::alloc::Global;
use tx_names::{BindError, Defs, Role, bind};
use tx_parse::{BlockError, Span, block, blocks};
use tx_text::{NoMemory, PyText};
use tx_tokens::{TokenError, TokenList, tokens};
use tx_tree::Block;

/// The role of the def, which takes one value.
const ROLE: Role = Role::Plain(1);

/// The line of the operator, of which no fault is told here.
const AT: u32 = 1;

// The tree of a block, where it has one.
fn tree_of(alloc: Global, list: &TokenList, span: Span) -> Result<Option<Block>, NoMemory> {
    if span.from < span.to && span.to <= list.len() {
        match block(alloc, list, span.from, span.to) {
            Ok(tree) => Ok(Some(tree)),
            Err(BlockError::NoMemory) => Err(NoMemory),
            Err(_) => Ok(None),
        }
    } else {
        Ok(None)
    }
}

/// The tree of a script's first block, where it has one.
pub(crate) fn first_block(alloc: Global, text: &PyText) -> Result<Option<Block>, NoMemory>
    requires { length text.now ≤ most_characters }
{
    let list = match tokens(alloc, text) {
        Ok(list) => list,
        Err(TokenError::NoMemory) => return Err(NoMemory),
        Err(_) => return Ok(None),
    };
    let spans = blocks(alloc, &list)?;
    match spans.as_slice().first() {
        Some(span) => tree_of(alloc, &list, *span),
        None => Ok(None),
    }
}

// How many slots a def has, where its names are bound.
fn slots(alloc: Global, def: &Block, earlier: &Defs) -> Result<Option<usize>, NoMemory> {
    match bind(alloc, def, earlier, ROLE, AT) {
        Ok(bound) => Ok(Some(bound.slots())),
        Err(BindError::NoMemory) => Err(NoMemory),
        Err(_) => Ok(None),
    }
}

/// Binds a def once and so many times more.
pub(crate) fn bind_often(alloc: Global, def: &Block, more: u32) -> Result<Option<usize>, NoMemory> {
    let earlier = Defs::new(alloc);
    let mut found = slots(alloc, def, &earlier)?;
    for _time in 0..more {
        found = slots(alloc, def, &earlier)?;
    }
    Ok(found)
}

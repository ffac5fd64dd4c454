// What is timed: the tokens of a script, its blocks, and the tree of each.
ghost use Rattle.std.specs.Prelude.{◌≤◌, length};
ghost use Rattle.tx_tokens.specs.Tokens.{most_characters};

use std::alloc::Global;
use tx_parse::{BlockError, Span, block, blocks};
use tx_text::{NoMemory, PyText};
use tx_tokens::{TokenError, TokenList, tokens};

/// How many tokens and blocks a script has, and how many of its blocks have a tree.
#[derive(Clone, Copy, Debug, PartialEq, Eq)]
pub(crate) struct Counts {
    pub(crate) tokens: usize,
    pub(crate) blocks: usize,
    pub(crate) trees: usize,
}

// Whether a block has a tree, which is made and let go.
fn has_tree(alloc: Global, list: &TokenList, span: Span) -> Result<bool, NoMemory> {
    if span.from < span.to && span.to <= list.len() {
        match block(alloc, list, span.from, span.to) {
            Ok(_) => Ok(true),
            Err(BlockError::NoMemory) => Err(NoMemory),
            Err(_) => Ok(false),
        }
    } else {
        Ok(false)
    }
}

fn trees_of(alloc: Global, list: &TokenList) -> Result<Counts, NoMemory> {
    let spans = blocks(alloc, list)?;
    let mut trees = 0usize;
    for span in spans.as_slice() {
        if has_tree(alloc, list, *span)? {
            trees = trees.wrapping_add(1);
        }
    }
    Ok(Counts {
        tokens: list.len(),
        blocks: spans.len(),
        trees,
    })
}

// A script whose tokens are at fault has none.
fn read(alloc: Global, text: &PyText) -> Result<Counts, NoMemory>
    requires { length text.now ≤ most_characters }
{
    match tokens(alloc, text) {
        Ok(list) => trees_of(alloc, &list),
        Err(TokenError::NoMemory) => Err(NoMemory),
        Err(_) => Ok(Counts {
            tokens: 0,
            blocks: 0,
            trees: 0,
        }),
    }
}

/// Reads a script once and so many times more.
pub(crate) fn read_often(alloc: Global, text: &PyText, more: u32) -> Result<Counts, NoMemory>
    requires { length text.now ≤ most_characters }
{
    let mut found = read(alloc, text)?;
    for _time in 0..more {
        found = read(alloc, text)?;
    }
    Ok(found)
}

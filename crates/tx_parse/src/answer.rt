// The tree of a block, and why there is none.
ghost use Rattle.std.specs.Prelude.{ℕ, Option, ◌≡◌, ◌⊎◌, ◌+◌, ◌≤◌, ◌<◌, IfOk, IfErr, Err, length, slice_range, option_map};
ghost use Rattle.tx_tree.specs.Words.{keyword_word};
ghost use Rattle.tx_tree.specs.Tree.{block_of};
ghost use Rattle.tx_parse.specs.Lexemes.{kind_of, lexemes};
ghost use Rattle.tx_parse.specs.Block.{IsBlock, NoBlock, most_levels};
ghost use Rattle.tx_parse.specs.Faults.{Cause, Place, is_outside, kind_outside_or, first_outside, mark_step, step_of, around, behind, stands_deep};
ghost use Rattle.tx_parse.specs.Calls.Front.{symbol_step, symbol_outside, placed};

use crate::chain::any_block;
use crate::cursor::Cursor;
use crate::fault::Fault;
use crate::symbol::{Symbol, symbol_of};
use std::alloc::Global;
use thiserror::Error;
use tx_text::{NoMemory, PyText};
use tx_tokens::{Token, TokenKind, TokenList};
use tx_tree::{Block, Keyword, Mark};

/// Why tokens are no block.
#[derive(Debug, Drop, Error)]
pub enum BlockError {
    /// The first keyword that the language does not have, with its line.
    #[error("line {line}: a keyword outside the language")]
    Outside { line: u32, word: PyText },
    /// No tree, and a token that stands in more than 64 brackets and indents. The line is that of the first token.
    #[error("line {line}: too deep")]
    TooDeep { line: u32 },
    /// No tree otherwise.
    #[error("line {line}: no block of the language")]
    NotABlock { line: u32 },
    #[error("out of memory")]
    NoMemory,
}

// How deep the tree of a block may be, and in how many brackets and indents a token of it may stand.
const MOST_LEVELS: u32 = 64;

/// The one tree whose spelling the tokens from one place to before another are: the grammar has it, it is at most 64
/// levels deep, and its lines are those of its tokens.
pub fn block(alloc: Global, t: &TokenList, from: usize, to: usize) -> Result<Block, BlockError>
    requires some { from < to }
    requires within { to ≤ length t.now }
    ensures ok { IfOk result (λ b. IsBlock (block_of b) (lexemes (slice_range t.now from to))) }
    ensures cause { IfErr result (λ e. Cause e (lexemes (slice_range t.now from to))) }
{
    block_in(alloc, &t.as_slice()[from..to])
}

fn block_in(alloc: Global, tokens: &[Token]) -> Result<Block, BlockError>
    ensures ok { IfOk result (λ b. IsBlock (block_of b) (lexemes tokens.now)) }
    ensures cause { IfErr result (λ e. Cause e (lexemes tokens.now)) }
{
    if let Some((line, keyword)) = first_outside(tokens) {
        return Err(outside(alloc, line, keyword));
    }
    match whole(alloc, tokens) {
        Ok(tree) => Ok(tree),
        Err(Fault::NoMemory) => Err(BlockError::NoMemory),
        Err(Fault::NotABlock) => {
            let line = Cursor::new(tokens).line();
            if stands_deep(tokens) {
                Err(BlockError::TooDeep { line })
            } else {
                Err(BlockError::NotABlock { line })
            }
        }
    }
}

#[tactic(auto, using(crate::proofs::Symbols::keyword_chars))]
fn outside(alloc: Global, line: u32, keyword: Keyword) -> BlockError
    ensures { (result ≡ BlockError.NoMemory) ⊎ (result ≡ BlockError.Outside line (keyword_word keyword)) }
{
    match PyText::from_str(alloc, keyword.word()) {
        Ok(word) => BlockError::Outside { line, word },
        Err(_) => BlockError::NoMemory,
    }
}

#[tactic(auto, using(crate::proofs::Exact::none_read))]
fn whole(alloc: Global, tokens: &[Token]) -> Result<Block, Fault>
    ensures ok { IfOk result (λ b. IsBlock (block_of b) (lexemes tokens.now)) }
    ensures none { result ≡ Err Fault.NotABlock → NoBlock (lexemes tokens.now) }
{
    let mut cursor = Cursor::new(tokens);
    let tree = any_block(alloc, MOST_LEVELS, &mut cursor)?;
    if cursor.left() > 0 {
        return Err(Fault::NotABlock);
    }
    Ok(tree)
}

// ---- keywords outside the language

fn is_outside(keyword: Keyword) -> bool
    ensures { result ≡ is_outside keyword }
{
    match keyword {
        Keyword::As
        | Keyword::Assert
        | Keyword::Async
        | Keyword::Await
        | Keyword::Class
        | Keyword::Del
        | Keyword::Except
        | Keyword::Finally
        | Keyword::From
        | Keyword::Global
        | Keyword::Import
        | Keyword::Nonlocal
        | Keyword::Raise
        | Keyword::Try
        | Keyword::While
        | Keyword::With
        | Keyword::Yield => true,
        _ => false,
    }
}

fn outside_word(symbol: Symbol) -> Option<Keyword>
    ensures { result ≡ symbol_outside symbol }
{
    match symbol {
        Symbol::Keyword(keyword) => {
            if is_outside(keyword) {
                Some(keyword)
            } else {
                None
            }
        }
        _ => None,
    }
}

// The keyword that a token is, if it is one outside the language.
fn outside_at(kind: &TokenKind) -> Option<Keyword>
    ensures { (line : ℕ) → (later : Option Place) → kind_outside_or (kind_of kind.now) line later ≡ placed line result later }
{
    outside_word(symbol_of(kind))
}

fn first_outside(tokens: &[Token]) -> Option<(u32, Keyword)>
    ensures { option_map (λ p. (p.0, keyword_word p.1)) result ≡ first_outside (lexemes tokens.now) }
{
    for token in tokens {
        if let Some(keyword) = outside_at(&token.kind) {
            return Some((token.line, keyword));
        }
    }
    None
}

// ---- nesting

// What a token opens or closes.
#[derive(Clone, Copy)]
enum Step {
    Opens,
    Closes,
    Stays,
}

fn step_of(symbol: Symbol) -> Step
    ensures { result ≡ symbol_step symbol }
{
    match symbol {
        Symbol::Mark(mark) => mark_step(mark),
        Symbol::Indent => Step::Opens,
        Symbol::Dedent => Step::Closes,
        _ => Step::Stays,
    }
}

fn step_at(kind: &TokenKind) -> Step
    ensures { result ≡ step_of (kind_of kind.now) }
{
    step_of(symbol_of(kind))
}

fn mark_step(mark: Mark) -> Step
    ensures { result ≡ mark_step mark }
{
    match mark {
        Mark::Open | Mark::OpenSquare | Mark::OpenBrace => Step::Opens,
        Mark::Close | Mark::CloseSquare | Mark::CloseBrace => Step::Closes,
        _ => Step::Stays,
    }
}

fn stands_deep(tokens: &[Token]) -> bool
    ensures { result ≡ stands_deep 0 (lexemes tokens.now) }
{
    let mut count = 0u32;
    for token in tokens {
        let step = step_at(&token.kind);
        if around(step, count) > MOST_LEVELS {
            return true;
        }
        count = behind(step, count);
    }
    false
}

fn around(step: Step, count: u32) -> u32
    ensures { result ≡ around step count }
{
    match step {
        Step::Closes => count.saturating_sub(1),
        _ => count,
    }
}

fn behind(step: Step, count: u32) -> u32
    requires { around step count ≤ most_levels }
    ensures same { result ≡ behind step count }
    ensures few { result ≤ most_levels + 1 }
{
    match step {
        Step::Opens => count.saturating_add(1),
        Step::Closes => count.saturating_sub(1),
        Step::Stays => count,
    }
}

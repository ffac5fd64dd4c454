// Chains and definitions.
ghost use Rattle.std.specs.Prelude.{◌≡◌, ◌≤◌, IfOk, Err, None, Some, map};
ghost use Rattle.tx_tree.specs.Tree.{arg_of, args_of, head_of, link_of, chain_of, block_of};
ghost use Rattle.tx_parse.specs.Calls.Reader.{items, items_behind, and_read};
ghost use Rattle.tx_parse.specs.Calls.Blocks.{params, arg, chain_args, head, link, links, chain, definition, named_chain, block};

use crate::cursor::Cursor;
use crate::expr::expr;
use crate::fault::Fault;
use crate::place::Place;
use crate::statement::suite;
use crate::symbol::Symbol;
use crate::target::{name, names, word};
use std::alloc::Global;
use tx_name_set::are_distinct;
use tx_text::Texts;
use tx_tree::{Arg, ArgList, Args, Block, Chain, Head, Keyword, Link, Links, Mark};

// ---- parameters

// Distinct names up to a symbol, and whether a comma stands behind the last.
fn params(alloc: Global, end: Symbol, cursor: &mut Cursor) -> Result<(Texts, bool), Fault>
    ensures ok { IfOk result (λ x. params end cursor.old ≡ Some ((x.0, x.1), cursor.new)) }
    ensures none { result ≡ Err Fault.NotABlock → params end cursor.old ≡ None }
{
    let (params, comma) = names(alloc, end, cursor)?;
    if !are_distinct(alloc, params.as_slice())? {
        return Err(Fault::NotABlock);
    }
    Ok((params, comma))
}

// ---- arguments

fn arg(alloc: Global, left: u32, cursor: &mut Cursor) -> Result<Arg, Fault>
    requires { left ≤ 64 }
    ensures ok { IfOk result (λ a. arg left cursor.old ≡ Some (arg_of a, cursor.new)) }
    ensures none { result ≡ Err Fault.NotABlock → arg left cursor.old ≡ None }
{
    let line = cursor.line();
    if !cursor.at(Symbol::Keyword(Keyword::Lambda)) {
        let (e, _) = expr(alloc, left, Place::Test, cursor)?;
        return Ok(Arg::Plain(e));
    }
    cursor.advance();
    let (params, comma) = params(alloc, Symbol::Mark(Mark::Colon), cursor)?;
    if comma {
        return Err(Fault::NotABlock);
    }
    cursor.expect(Symbol::Mark(Mark::Colon))?;
    let (body, _) = expr(alloc, left, Place::Test, cursor)?;
    Ok(Arg::Lambda { line, params, body })
}

// Arguments in brackets.
fn chain_args(alloc: Global, left: u32, cursor: &mut Cursor) -> Result<Args, Fault>
    requires { left ≤ 64 }
    ensures ok { IfOk result (λ a. chain_args left cursor.old ≡ Some (args_of a, cursor.new)) }
    ensures none { result ≡ Err Fault.NotABlock → chain_args left cursor.old ≡ None }
{
    cursor.expect(Symbol::Mark(Mark::Open))?;
    let (items, comma) = arg_list(alloc, left, cursor)?;
    cursor.expect(Symbol::Mark(Mark::Close))?;
    Ok(Args { items, comma })
}

fn arg_list(alloc: Global, left: u32, cursor: &mut Cursor) -> Result<(ArgList, bool), Fault>
    requires { left ≤ 64 }
    ensures ok { IfOk result (λ x. items (arg left) (Symbol.Mark Mark.Close) cursor.old ≡ Some ((map arg_of x.0, x.1), cursor.new)) }
    ensures none { result ≡ Err Fault.NotABlock → items (arg left) (Symbol.Mark Mark.Close) cursor.old ≡ None }
{
    if cursor.at(Symbol::Mark(Mark::Close)) {
        return Ok((ArgList::new(alloc), false));
    }
    args_behind(alloc, left, cursor)
}

#[tactic(auto, using(crate::proofs::Turns::turns))]
fn args_behind(alloc: Global, left: u32, cursor: &mut Cursor) -> Result<(ArgList, bool), Fault>
    requires { left ≤ 64 }
    ensures ok { IfOk result (λ x. and_read (arg left cursor.old) (items_behind (arg left) (Symbol.Mark Mark.Close)) ≡ Some ((map arg_of x.0, x.1), cursor.new)) }
    ensures none { result ≡ Err Fault.NotABlock → and_read (arg left cursor.old) (items_behind (arg left) (Symbol.Mark Mark.Close)) ≡ None }
{
    let first = arg(alloc, left, cursor)?;
    let mut done = ArgList::new(alloc);
    done.push(first)?;
    let most = cursor.left();
    for _turn in 0..most {
        if !cursor.at(Symbol::Mark(Mark::Comma)) {
            return Ok((done, false));
        }
        cursor.advance();
        if cursor.at(Symbol::Mark(Mark::Close)) {
            return Ok((done, true));
        }
        done.push(arg(alloc, left, cursor)?)?;
    }
    Ok((done, false))
}

// ---- chains

fn head(alloc: Global, left: u32, cursor: &mut Cursor) -> Result<Head, Fault>
    requires { left ≤ 64 }
    ensures ok { IfOk result (λ h. head left cursor.old ≡ Some (head_of h, cursor.new)) }
    ensures none { result ≡ Err Fault.NotABlock → head left cursor.old ≡ None }
{
    let word = word(alloc, cursor)?;
    if !cursor.at(Symbol::Mark(Mark::Open)) {
        return Ok(Head { word, args: None });
    }
    let args = chain_args(alloc, left, cursor)?;
    Ok(Head {
        word,
        args: Some(args),
    })
}

// A link behind its dot.
fn link(alloc: Global, left: u32, line: u32, cursor: &mut Cursor) -> Result<Link, Fault>
    requires { left ≤ 64 }
    ensures ok { IfOk result (λ x. link left line cursor.old ≡ Some (link_of x, cursor.new)) }
    ensures none { result ≡ Err Fault.NotABlock → link left line cursor.old ≡ None }
{
    let word = word(alloc, cursor)?;
    let args = chain_args(alloc, left, cursor)?;
    Ok(Link { line, word, args })
}

#[tactic(auto, using(crate::proofs::StatementTurns::statement_turns))]
fn links(alloc: Global, left: u32, cursor: &mut Cursor) -> Result<Links, Fault>
    requires { left ≤ 64 }
    ensures ok { IfOk result (λ xs. links left cursor.old ≡ Some (map link_of xs, cursor.new)) }
    ensures none { result ≡ Err Fault.NotABlock → links left cursor.old ≡ None }
{
    let mut done = Links::new(alloc);
    let most = cursor.left();
    for _turn in 0..most {
        if !cursor.at(Symbol::Mark(Mark::Dot)) {
            return Ok(done);
        }
        let line = cursor.line();
        cursor.advance();
        done.push(link(alloc, left, line, cursor)?)?;
    }
    Ok(done)
}

// A chain with the end of its line.
fn chain(alloc: Global, left: u32, cursor: &mut Cursor) -> Result<Chain, Fault>
    requires { left ≤ 64 }
    ensures ok { IfOk result (λ c. chain left cursor.old ≡ Some (chain_of c, cursor.new)) }
    ensures none { result ≡ Err Fault.NotABlock → chain left cursor.old ≡ None }
{
    let line = cursor.line();
    let in_brackets = cursor.at(Symbol::Mark(Mark::Open));
    if in_brackets {
        cursor.advance();
    }
    let head = head(alloc, left, cursor)?;
    let links = links(alloc, left, cursor)?;
    if in_brackets {
        cursor.expect(Symbol::Mark(Mark::Close))?;
    }
    cursor.expect(Symbol::Newline)?;
    Ok(Chain {
        line,
        in_brackets,
        head,
        links,
    })
}

// ---- blocks

// A definition behind its `def`.
fn definition(alloc: Global, left: u32, line: u32, cursor: &mut Cursor) -> Result<Block, Fault>
    requires { left ≤ 64 }
    ensures ok { IfOk result (λ b. definition left line cursor.old ≡ Some (block_of b, cursor.new)) }
    ensures none { result ≡ Err Fault.NotABlock → definition left line cursor.old ≡ None }
{
    let name = name(alloc, cursor)?;
    cursor.expect(Symbol::Mark(Mark::Open))?;
    let (params, comma) = params(alloc, Symbol::Mark(Mark::Close), cursor)?;
    cursor.expect(Symbol::Mark(Mark::Close))?;
    cursor.expect(Symbol::Mark(Mark::Colon))?;
    let suite = suite(alloc, left, false, cursor)?;
    Ok(Block::Def {
        line,
        name,
        params,
        comma,
        suite,
    })
}

fn named_chain(alloc: Global, left: u32, cursor: &mut Cursor) -> Result<Block, Fault>
    requires { left ≤ 64 }
    ensures ok { IfOk result (λ b. named_chain left cursor.old ≡ Some (block_of b, cursor.new)) }
    ensures none { result ≡ Err Fault.NotABlock → named_chain left cursor.old ≡ None }
{
    let line = cursor.line();
    let name = name(alloc, cursor)?;
    cursor.expect(Symbol::Mark(Mark::Assign))?;
    let chain = chain(alloc, left, cursor)?;
    Ok(Block::Named { line, name, chain })
}

/// A block, in which what stands has at most `left` levels.
pub(crate) fn any_block(alloc: Global, left: u32, cursor: &mut Cursor) -> Result<Block, Fault>
    requires { left ≤ 64 }
    ensures ok { IfOk result (λ b. block left cursor.old ≡ Some (block_of b, cursor.new)) }
    ensures none { result ≡ Err Fault.NotABlock → block left cursor.old ≡ None }
{
    let line = cursor.line();
    if cursor.at(Symbol::Keyword(Keyword::Def)) {
        cursor.advance();
        return definition(alloc, left, line, cursor);
    }
    if cursor.at(Symbol::Name) && cursor.second_at(Symbol::Mark(Mark::Assign)) {
        return named_chain(alloc, left, cursor);
    }
    Ok(Block::Alone(chain(alloc, left, cursor)?))
}

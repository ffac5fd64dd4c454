// The blocks of a script: where each begins and ends in its tokens.
ghost use Rattle.std.specs.Prelude.{◌≡◌, ◌<◌, ◌-◌, ◌^◌, IfOk};
ghost use Rattle.tx_parse.specs.Spans.{spans_of, open_behind, fresh_behind, begins};

use std::alloc::Global;
use tx_text::{NoMemory, Sequence};
use tx_tokens::{Token, TokenKind, TokenList};

/// A block: the tokens from one place to before another.
#[derive(Clone, Copy, Debug, PartialEq, Eq)]
pub struct Span {
    pub from: usize,
    pub to: usize,
}

/// A list of spans.
pub type Spans = Sequence<Span>;

/// The spans of all blocks, in order. A block is the tokens from one line in column 0 to before the next such line.
pub fn blocks(alloc: Global, t: &TokenList) -> Result<Spans, NoMemory>
    ensures { IfOk result (λ ss. ss ≡ spans_of t.now) }
{
    spans(alloc, t.as_slice())
}

#[tactic(auto, using(crate::proofs::Covers::walk_is_spans))]
fn spans(alloc: Global, tokens: &[Token]) -> Result<Spans, NoMemory>
    ensures { IfOk result (λ ss. ss ≡ spans_of tokens.now) }
{
    let mut done = Spans::new(alloc);
    let Some((first, rest)) = tokens.split_first() else {
        return Ok(done);
    };
    let mut from = 0usize;
    let mut at = 1usize;
    let mut count = open_behind(&first.kind, 0);
    let mut fresh = fresh_behind(&first.kind, true);
    for token in rest {
        if begins(count, fresh, &token.kind) {
            done.push(Span { from, to: at })?;
            from = at;
        }
        count = open_behind(&token.kind, count);
        fresh = fresh_behind(&token.kind, fresh);
        at += 1;
    }
    done.push(Span { from, to: at })?;
    Ok(done)
}

fn open_behind(kind: &TokenKind, count: usize) -> usize
    requires { count < 2 ^ 64 - 1 }
    ensures { result ≡ open_behind kind.now count }
{
    match kind {
        TokenKind::Indent => count + 1,
        TokenKind::Dedent => count.saturating_sub(1),
        _ => count,
    }
}

fn fresh_behind(kind: &TokenKind, fresh: bool) -> bool
    ensures { result ≡ fresh_behind kind.now fresh }
{
    match kind {
        TokenKind::Newline => true,
        TokenKind::Indent | TokenKind::Dedent => fresh,
        _ => false,
    }
}

// Whether a token is the first of a line in column 0.
fn begins(count: usize, fresh: bool, kind: &TokenKind) -> bool
    ensures { result ≡ begins count fresh kind.now }
{
    match kind {
        TokenKind::Indent | TokenKind::Dedent => false,
        _ => fresh && count == 0,
    }
}

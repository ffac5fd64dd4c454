// Tokens by their kind alone, with keywords and marks told apart.
ghost use Rattle.std.specs.Prelude.{◌≡◌};
ghost use Rattle.tx_parse.specs.Lexemes.{kind_of};
ghost use Rattle.tx_parse.specs.Calls.Front.{symbol_of, same_symbol};

use tx_text::PyText;
use tx_tokens::TokenKind;
use tx_tree::{Keyword, Mark, keyword_named, mark_named};

/// A token without what a name or a literal holds.
#[derive(Clone, Copy, Debug)]
pub(crate) enum Symbol {
    Name,
    Keyword(Keyword),
    Number,
    Quoted,
    Mark(Mark),
    Newline,
    Indent,
    Dedent,
    /// A mark that the language does not have.
    Unknown,
    /// Behind the last token.
    End,
}

pub(crate) fn symbol_of(kind: &TokenKind) -> Symbol
    ensures { result ≡ symbol_of (kind_of kind.now) }
{
    match kind {
        TokenKind::Name(name) => name_symbol(name),
        TokenKind::Int(_) => Symbol::Number,
        TokenKind::Text(_) => Symbol::Quoted,
        TokenKind::Mark(mark) => mark_symbol(mark),
        TokenKind::Newline => Symbol::Newline,
        TokenKind::Indent => Symbol::Indent,
        TokenKind::Dedent => Symbol::Dedent,
    }
}

fn name_symbol(name: &PyText) -> Symbol
    ensures { result ≡ symbol_of (kind_of (TokenKind.Name name.now)) }
{
    match keyword_named(name.as_str()) {
        Some(keyword) => Symbol::Keyword(keyword),
        None => Symbol::Name,
    }
}

fn mark_symbol(mark: &PyText) -> Symbol
    ensures { result ≡ symbol_of (kind_of (TokenKind.Mark mark.now)) }
{
    match mark_named(mark.as_str()) {
        Some(mark) => Symbol::Mark(mark),
        None => Symbol::Unknown,
    }
}

pub(crate) fn is_same(a: Symbol, b: Symbol) -> bool
    ensures { result ≡ same_symbol a b }
{
    match a {
        Symbol::Keyword(keyword) => is_keyword(keyword, b),
        Symbol::Mark(mark) => is_mark(mark, b),
        Symbol::Name => matches!(b, Symbol::Name),
        Symbol::Number => matches!(b, Symbol::Number),
        Symbol::Quoted => matches!(b, Symbol::Quoted),
        Symbol::Newline => matches!(b, Symbol::Newline),
        Symbol::Indent => matches!(b, Symbol::Indent),
        Symbol::Dedent => matches!(b, Symbol::Dedent),
        Symbol::Unknown => matches!(b, Symbol::Unknown),
        Symbol::End => matches!(b, Symbol::End),
    }
}

#[tactic(auto, using(crate::proofs::Symbols::keyword_test))]
fn is_keyword(keyword: Keyword, symbol: Symbol) -> bool
    ensures { result ≡ same_symbol (Symbol.Keyword keyword) symbol }
{
    match symbol {
        Symbol::Keyword(other) => keyword == other,
        _ => false,
    }
}

#[tactic(auto, using(crate::proofs::Symbols::mark_test))]
fn is_mark(mark: Mark, symbol: Symbol) -> bool
    ensures { result ≡ same_symbol (Symbol.Mark mark) symbol }
{
    match symbol {
        Symbol::Mark(other) => mark == other,
        _ => false,
    }
}

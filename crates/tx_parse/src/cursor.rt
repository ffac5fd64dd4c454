// The tokens that are left.
ghost use Rattle.std.specs.Prelude.{◌≡◌, IfOk, OnOk, Err, Some, true, false, length, drop, unwrap_or};
ghost use Rattle.tx_tree.specs.Form.{is_name};
ghost use Rattle.tx_parse.specs.Lexemes.{kind_of, lexemes, line_at};
ghost use Rattle.tx_parse.specs.Calls.Front.{symbol_at, symbol_of, text_at, text_of, content, number_at, number_of, rest_of, at, assigns_at, mark_assigns, compare_at, mark_compare, word_compare, not_in, is_or_not, behind_op};
ghost use Rattle.tx_parse.specs.declared.cursor.Assigns.{Assigns};

use crate::fault::Fault;
use crate::symbol::{Symbol, is_same, symbol_of};
use std::alloc::Global;
use std::marker::Model;
use tx_text::{NoMemory, PyText};
use tx_tokens::{Token, TokenKind};
use tx_tree::{BinaryOp, CompareOp, Keyword, Mark};

/// What a line assigns by.
#[derive(Clone, Copy, Debug, PartialEq, Eq)]
pub(crate) enum Assigns {
    Nothing,
    Plain,
    With(BinaryOp),
}

/// A place in a list of tokens, seen as the lexemes from there on. The symbol of the first is kept, since each level of
/// the grammar asks for it.
#[derive(Drop)]
pub(crate) struct Cursor<'a> {
    tokens: &'a [Token],
    place: usize,
    symbol: Symbol,
}

impl<'a> Model for Cursor<'a> {
    ghost use Rattle.std.specs.Prelude.{List, ◌≡◌, ◌≤◌, length, drop};
    ghost use Rattle.tx_parse.specs.Lexemes.{Lexeme, lexemes};
    ghost use Rattle.tx_parse.specs.Calls.Front.{symbol_at};

    ghost Value = { List Lexeme };

    ghost view = { λ c. lexemes (drop c.place c.tokens.now) };

    ghost invariant = { λ c. (c.place ≤ length c.tokens.now) × (c.symbol ≡ symbol_at (lexemes (drop c.place c.tokens.now))) };
}

#[tactic(auto, using(crate::proofs::Fronts::lexemes_more, crate::proofs::Fronts::lexemes_end))]
fn symbol_in(tokens: &[Token], place: usize) -> Symbol
    ensures { result ≡ symbol_at (lexemes (drop place tokens.now)) }
{
    match tokens.get(place) {
        Some(token) => symbol_of(&token.kind),
        None => Symbol::End,
    }
}

impl<'a> Cursor<'a> {
    pub(crate) fn new(tokens: &'a [Token]) -> Cursor<'a>
        ensures { result ≡ lexemes tokens.now }
    {
        Cursor {
            tokens,
            place: 0,
            symbol: symbol_in(tokens, 0),
        }
    }

    pub(crate) fn symbol(&self) -> Symbol
        ensures { result ≡ symbol_at self.now }
    {
        self.symbol
    }

    /// The line of the next token, and 0 at the end.
    #[tactic(auto, using(crate::proofs::Fronts::lexemes_more, crate::proofs::Fronts::lexemes_end))]
    pub(crate) fn line(&self) -> u32
        ensures { result ≡ line_at self.now }
    {
        match self.tokens.get(self.place) {
            Some(token) => token.line,
            None => 0,
        }
    }

    /// How many tokens are left.
    pub(crate) fn left(&self) -> usize
        ensures { result ≡ length self.now }
    {
        self.tokens.len() - self.place
    }

    #[tactic(auto, using(crate::proofs::Fronts::rest_of_lexemes, crate::proofs::Fronts::lexemes_end))]
    pub(crate) fn advance(&mut self)
        ensures { self.new ≡ rest_of self.old }
    {
        if self.place < self.tokens.len() {
            self.place += 1;
            self.symbol = symbol_in(self.tokens, self.place);
        }
    }

    pub(crate) fn at(&self, symbol: Symbol) -> bool
        ensures { result ≡ at symbol self.now }
    {
        is_same(symbol, self.symbol)
    }

    /// Whether the token behind the next one is of this symbol.
    pub(crate) fn second_at(&self, symbol: Symbol) -> bool
        ensures { result ≡ at symbol (rest_of self.now) }
    {
        is_same(symbol, self.second())
    }

    #[tactic(auto, using(crate::proofs::Fronts::rest_of_lexemes, crate::proofs::Fronts::lexemes_end))]
    fn second(&self) -> Symbol
        ensures { result ≡ symbol_at (rest_of self.now) }
    {
        if self.place < self.tokens.len() {
            symbol_in(self.tokens, self.place + 1)
        } else {
            Symbol::End
        }
    }

    /// Goes on behind this symbol.
    pub(crate) fn expect(&mut self, symbol: Symbol) -> Result<(), Fault>
        ensures ok { OnOk result (at symbol self.old ≡ true) }
        ensures past { OnOk result (self.new ≡ rest_of self.old) }
        ensures none { result ≡ Err Fault.NotABlock → at symbol self.old ≡ false }
    {
        if !self.at(symbol) {
            return Err(Fault::NotABlock);
        }
        self.advance();
        Ok(())
    }

    /// What the next token holds, where it is a name or a text.
    #[tactic(auto, using(crate::proofs::Fronts::lexemes_more, crate::proofs::Fronts::lexemes_end))]
    pub(crate) fn text(&self, alloc: Global) -> Result<PyText, NoMemory>
        ensures text { IfOk result (λ t. t ≡ text_at self.now) }
        ensures named { OnOk result (at Symbol.Name self.now ≡ true → is_name (text_at self.now) ≡ true) }
    {
        match self.tokens.get(self.place) {
            Some(token) => text_of(alloc, self.symbol, &token.kind),
            None => Ok(PyText::new(alloc)),
        }
    }

    /// The next token's number, where it is one.
    #[tactic(auto, using(crate::proofs::Fronts::lexemes_more, crate::proofs::Fronts::lexemes_end))]
    pub(crate) fn number(&self) -> i128
        ensures { result ≡ number_at self.now }
    {
        match self.tokens.get(self.place) {
            Some(token) => number_of(&token.kind),
            None => 0,
        }
    }

    /// The operator of a comparison in front.
    pub(crate) fn comparison(&self) -> Option<CompareOp>
        ensures { result ≡ compare_at self.now }
    {
        match self.symbol {
            Symbol::Mark(mark) => mark_compare(mark),
            Symbol::Keyword(keyword) => self.word_compare(keyword),
            _ => None,
        }
    }

    fn word_compare(&self, keyword: Keyword) -> Option<CompareOp>
        ensures { result ≡ word_compare keyword (rest_of self.now) }
    {
        match keyword {
            Keyword::In => Some(CompareOp::In),
            Keyword::Not => not_in(self.second_at(Symbol::Keyword(Keyword::In))),
            Keyword::Is => Some(is_or_not(self.second_at(Symbol::Keyword(Keyword::Not)))),
            _ => None,
        }
    }

    /// Goes on behind the operator of a comparison.
    pub(crate) fn skip(&mut self, op: CompareOp)
        ensures { self.new ≡ behind_op op self.old }
    {
        self.advance();
        match op {
            CompareOp::NotIn | CompareOp::IsNot => self.advance(),
            _ => {}
        }
    }

    /// The first mark on the line that assigns.
    pub(crate) fn assigns(&self) -> Assigns
        ensures { result ≡ assigns_at self.now }
    {
        first_assigns(&self.tokens[self.place..])
    }
}

fn not_in(behind: bool) -> Option<CompareOp>
    ensures { result ≡ not_in behind }
{
    if behind { Some(CompareOp::NotIn) } else { None }
}

fn is_or_not(behind: bool) -> CompareOp
    ensures { Some result ≡ is_or_not behind }
{
    if behind {
        CompareOp::IsNot
    } else {
        CompareOp::Is
    }
}

fn text_of(alloc: Global, symbol: Symbol, kind: &TokenKind) -> Result<PyText, NoMemory>
    requires { symbol ≡ symbol_of (kind_of kind.now) }
    ensures { IfOk result (λ t. t ≡ text_of (kind_of kind.now)) }
{
    match symbol {
        Symbol::Name | Symbol::Quoted => content(alloc, kind),
        _ => Ok(PyText::new(alloc)),
    }
}

fn content(alloc: Global, kind: &TokenKind) -> Result<PyText, NoMemory>
    ensures { IfOk result (λ t. t ≡ content kind.now) }
{
    match kind {
        TokenKind::Name(text) => PyText::from_str(alloc, text.as_str()),
        TokenKind::Text(text) => PyText::from_str(alloc, text.as_str()),
        _ => Ok(PyText::new(alloc)),
    }
}

fn number_of(kind: &TokenKind) -> i128
    ensures { result ≡ number_of (kind_of kind.now) }
{
    match kind {
        TokenKind::Int(value) => *value,
        _ => 0,
    }
}

fn mark_compare(mark: Mark) -> Option<CompareOp>
    ensures { result ≡ mark_compare mark }
{
    match mark {
        Mark::Equal => Some(CompareOp::Equal),
        Mark::NotEqual => Some(CompareOp::NotEqual),
        Mark::Less => Some(CompareOp::Less),
        Mark::LessEqual => Some(CompareOp::LessEqual),
        Mark::Greater => Some(CompareOp::Greater),
        Mark::GreaterEqual => Some(CompareOp::GreaterEqual),
        _ => None,
    }
}

// What a mark assigns by, if it does.
fn mark_assigns(mark: Mark) -> Option<Assigns>
    ensures { (later : Assigns) → mark_assigns mark later ≡ unwrap_or result later }
{
    match mark {
        Mark::Assign => Some(Assigns::Plain),
        Mark::PlusAssign => Some(Assigns::With(BinaryOp::Add)),
        Mark::MinusAssign => Some(Assigns::With(BinaryOp::Sub)),
        Mark::StarAssign => Some(Assigns::With(BinaryOp::Mul)),
        Mark::DoubleSlashAssign => Some(Assigns::With(BinaryOp::FloorDiv)),
        Mark::PercentAssign => Some(Assigns::With(BinaryOp::Mod)),
        _ => None,
    }
}

fn first_assigns(tokens: &[Token]) -> Assigns
    ensures { result ≡ assigns_at (lexemes tokens.now) }
{
    for token in tokens {
        match symbol_of(&token.kind) {
            Symbol::Newline => return Assigns::Nothing,
            Symbol::Mark(mark) => {
                if let Some(found) = mark_assigns(mark) {
                    return found;
                }
            }
            _ => {}
        }
    }
    Assigns::Nothing
}

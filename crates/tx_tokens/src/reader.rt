// The reading of a text, line by line.
ghost use Rattle.std.specs.Prelude.{◌≡◌, ◌≢◌, ◌∷◌, ◌++◌, ◌+◌, ◌≤◌, ◌<◌, ◌^◌, [], ℕ, List, Ok, Err, OnOk, IfOk, IfErr, Some, None, drop, length, map, take, filter};
ghost use Rattle.std.specs.List.{list_all, list_any, prefix_len};
ghost use Rattle.std.specs.Str.{chars};
ghost use Rattle.tx_tokens.specs.Lines.{Line};
ghost use Rattle.tx_tokens.specs.Pieces.{cuts, is_blank, is_passed, run};
ghost use Rattle.tx_tokens.specs.Layout.{Event, State, behind_line, closing_to, columns_behind, cut_events, end_events, first_line, front_at, front_behind, front_events, front_of, gives_nothing, is_outside, is_tab, last_events, line_events, opened_behind_cut, opened_behind_cuts, opened_behind_line, piece_events};
ghost use Rattle.tx_tokens.specs.Tokens.{start, tokens_behind};
ghost use Rattle.tx_tokens.specs.Calls.Walking.{starts_nothing};
ghost use Rattle.tx_tokens.specs.Calls.Reading.{Failed, Gave, answer, newline_events, state_of};

use crate::cursor::first_char;
use crate::nesting::{Open, nest_token};
use crate::piece::{Piece, first_piece};
use crate::stack::Stack;
use crate::token::{Token, TokenError, TokenKind, TokenList};
use crate::word::blanks;
use std::alloc::Global;
use tx_text::NoMemory;

/// How far a text was read.
#[derive(Drop)]
pub(crate) struct Reader {
    alloc: Global,
    /// The tokens so far, and where the last of them ends that is written in the text.
    tokens: TokenList,
    end: usize,
    end_line: u32,
    /// The number of the line, and the place in the text.
    line: u32,
    place: usize,
    /// The columns and the brackets that are open.
    columns: Stack<usize>,
    opened: Stack<Open>,
}

/// Whether a tab is among the blanks in front.
fn has_tab(content: &str) -> bool
    ensures { result ≡ list_any is_tab (run is_blank (chars content.now)) }
{
    let mut rest = content;
    'blanks: while let Some((c, more)) = first_char(rest) {
        if c == '\t' {
            return true;
        }
        if c != ' ' {
            return false;
        }
        rest = more;
    }
    false
}

/// Whether a comment stands in front, or nothing.
fn starts_nothing(text: &str) -> bool
    ensures { result ≡ starts_nothing (chars text.now) }
{
    match first_char(text) {
        None => true,
        Some((c, _)) => c == '#',
    }
}

/// Whether a line holds only blanks and a comment.
fn is_passed(content: &str) -> bool
    ensures { result ≡ list_all is_passed (cuts (chars content.now)) }
{
    starts_nothing(blanks(content).1)
}

impl Reader {
    /// The reading of a text behind so many characters that are dropped, into an empty list.
    pub(crate) fn new(alloc: Global, tokens: TokenList, dropped: usize) -> Reader
        requires { tokens ≡ [] }
        ensures state { state_of result ≡ start dropped }
        ensures answer { (es : List Event) → answer result es ≡ tokens_behind 0 1 es }
    {
        Reader {
            alloc,
            tokens,
            end: 0,
            end_line: 1,
            line: 1,
            place: dropped,
            columns: Stack::new(alloc),
            opened: Stack::new(alloc),
        }
    }

    // Adds a token of the layout, which stands at the end of the last written one.
    fn lay(&mut self, kind: TokenKind) -> Result<(), NoMemory>
        ensures { OnOk result (self.new ≡ record self.old { tokens = self.old.tokens ++ (record { kind = kind; from = self.old.end; to = self.old.end; line = self.old.end_line }) ∷ [] }) }
    {
        self.tokens.push(Token {
            kind,
            from: self.end,
            to: self.end,
            line: self.end_line,
        })
    }

    // Adds a token of so many characters, which stands at this place.
    fn write(&mut self, kind: TokenKind, size: usize) -> Result<(), NoMemory>
        requires { self.old.place + size < 2 ^ 64 }
        ensures { OnOk result (self.new ≡ record self.old { tokens = self.old.tokens ++ (record { kind = kind; from = self.old.place; to = self.old.place + size; line = self.old.line }) ∷ []; place = self.old.place + size; end = self.old.place + size; end_line = self.old.line }) }
    {
        let from = self.place;
        let to = from + size;
        self.tokens.push(Token {
            kind,
            from,
            to,
            line: self.line,
        })?;
        self.place = to;
        self.end = to;
        self.end_line = self.line;
        Ok(())
    }

    // Goes on behind a token of so many characters.
    fn token(&mut self, kind: TokenKind, size: usize) -> Result<(), TokenError>
        requires { self.old.place + size < 2 ^ 64 }
        ensures gave { OnOk result (Gave self.old self.new (piece_events self.old.line self.old.place size self.old.opened (Piece.Written kind))) }
        ensures state { OnOk result (state_of self.new ≡ record (state_of self.old) { place = self.old.place + size; opened = opened_behind_cut self.old.line self.old.opened (Piece.Written kind) }) }
        ensures failed { IfErr result (λ e. e ≢ TokenError.NoMemory → Failed self.old (piece_events self.old.line self.old.place size self.old.opened (Piece.Written kind)) e) }
    {
        let line = self.line;
        if !nest_token(&mut self.opened, &kind, line)? {
            return Err(TokenError::BadToken { line });
        }
        self.write(kind, size)?;
        Ok(())
    }

    // Goes on behind a piece of so many characters.
    fn piece(&mut self, piece: Piece, size: usize) -> Result<(), TokenError>
        requires { self.old.place + size < 2 ^ 64 }
        ensures gave { OnOk result (Gave self.old self.new (piece_events self.old.line self.old.place size self.old.opened piece)) }
        ensures state { OnOk result (state_of self.new ≡ record (state_of self.old) { place = self.old.place + size; opened = opened_behind_cut self.old.line self.old.opened piece }) }
        ensures failed { IfErr result (λ e. e ≢ TokenError.NoMemory → Failed self.old (piece_events self.old.line self.old.place size self.old.opened piece) e) }
    {
        match piece {
            Piece::Passed => {
                self.place += size;
                Ok(())
            }
            Piece::Written(kind) => self.token(kind, size),
            Piece::Bad => Err(TokenError::BadToken { line: self.line }),
            Piece::TooWide => Err(TokenError::WidthPast { line: self.line }),
        }
    }

    // Goes over the pieces of a line.
    fn pieces(&mut self, content: &str) -> Result<(), TokenError>
        requires { self.old.place + length (chars content.now) < 2 ^ 64 }
        ensures gave { OnOk result (Gave self.old self.new (cut_events self.old.line self.old.place self.old.opened (cuts (chars content.now)))) }
        ensures state { OnOk result (state_of self.new ≡ record (state_of self.old) { place = self.old.place + length (chars content.now); opened = opened_behind_cuts self.old.line self.old.opened (cuts (chars content.now)) }) }
        ensures failed { IfErr result (λ e. e ≢ TokenError.NoMemory → Failed self.old (cut_events self.old.line self.old.place self.old.opened (cuts (chars content.now))) e) }
    {
        let alloc = self.alloc;
        let mut rest = content;
        'pieces: while let Some((first, behind)) = first_char(rest) {
            let (piece, size, more) = first_piece(alloc, first, behind, rest)?;
            self.piece(piece, size)?;
            rest = more;
        }
        Ok(())
    }

    // Closes the last column.
    fn close_last(&mut self) -> Result<(), NoMemory>
        ensures { OnOk result (self.new ≡ record self.old { columns = drop 1 self.old.columns; tokens = self.old.tokens ++ (record { kind = TokenKind.Dedent; from = self.old.end; to = self.old.end; line = self.old.end_line }) ∷ [] }) }
    {
        self.columns.pop();
        self.lay(TokenKind::Dedent)
    }

    // Closes the columns that are greater than one, which is then the last.
    fn close_to(&mut self, column: usize) -> Result<(), TokenError>
        ensures gave { OnOk result (Gave self.old self.new (front_events (state_of self.old) (closing_to column self.old.columns))) }
        ensures state { OnOk result (state_of self.new ≡ record (state_of self.old) { columns = columns_behind (state_of self.old) (closing_to column self.old.columns) }) }
        ensures failed { IfErr result (λ e. e ≢ TokenError.NoMemory → Failed self.old (front_events (state_of self.old) (closing_to column self.old.columns)) e) }
    {
        let line = self.line;
        'columns: while let Some(last) = self.columns.last() {
            if column == last {
                return Ok(());
            }
            if column > last {
                return Err(TokenError::BadIndent { line });
            }
            self.close_last()?;
        }
        Err(TokenError::BadIndent { line })
    }

    // Goes on at the column of a line that begins a logical one.
    fn stand_at(&mut self, column: usize) -> Result<(), TokenError>
        ensures gave { OnOk result (Gave self.old self.new (front_events (state_of self.old) (front_at column self.old.columns))) }
        ensures state { OnOk result (state_of self.new ≡ record (state_of self.old) { columns = columns_behind (state_of self.old) (front_at column self.old.columns) }) }
        ensures failed { IfErr result (λ e. e ≢ TokenError.NoMemory → Failed self.old (front_events (state_of self.old) (front_at column self.old.columns)) e) }
    {
        match self.columns.last() {
            None if column == 0 => {
                self.columns.push(0)?;
                Ok(())
            }
            None => Err(TokenError::BadIndent { line: self.line }),
            Some(last) if last < column => {
                self.columns.push(column)?;
                self.lay(TokenKind::Indent)?;
                Ok(())
            }
            Some(_) => self.close_to(column),
        }
    }

    // Goes on at the front of a line that begins a logical one.
    fn front(&mut self, content: &str) -> Result<(), TokenError>
        ensures gave { OnOk result (Gave self.old self.new (front_events (state_of self.old) (front_of (chars content.now) self.old.columns))) }
        ensures state { OnOk result (state_of self.new ≡ record (state_of self.old) { columns = columns_behind (state_of self.old) (front_of (chars content.now) self.old.columns) }) }
        ensures failed { IfErr result (λ e. e ≢ TokenError.NoMemory → Failed self.old (front_events (state_of self.old) (front_of (chars content.now) self.old.columns)) e) }
    {
        if has_tab(content) {
            return Err(TokenError::BadIndent { line: self.line });
        }
        let (column, _) = blanks(content);
        self.stand_at(column)
    }

    // Whether a line gives nothing.
    fn gives_nothing(&self, content: &str) -> bool
        ensures { result ≡ gives_nothing (state_of self.now) (chars content.now) }
    {
        self.opened.is_empty() && is_passed(content)
    }

    // Goes on at the front of a line.
    fn begin(&mut self, content: &str, nothing: bool) -> Result<(), TokenError>
        requires { nothing ≡ gives_nothing (state_of self.old) (chars content.now) }
        ensures gave { OnOk result (Gave self.old self.new (front_events (state_of self.old) (front_behind (state_of self.old) (chars content.now)))) }
        ensures state { OnOk result (state_of self.new ≡ record (state_of self.old) { columns = columns_behind (state_of self.old) (front_behind (state_of self.old) (chars content.now)) }) }
        ensures failed { IfErr result (λ e. e ≢ TokenError.NoMemory → Failed self.old (front_events (state_of self.old) (front_behind (state_of self.old) (chars content.now))) e) }
    {
        if !self.opened.is_empty() || nothing {
            return Ok(());
        }
        self.front(content)
    }

    // Goes on at the end of a line.
    fn end(&mut self, nothing: bool) -> Result<(), NoMemory>
        ensures gave { OnOk result ((place : ℕ) → Gave self.old self.new (newline_events place self.old.opened nothing)) }
        ensures state { OnOk result (state_of self.new ≡ state_of self.old) }
    {
        if nothing || !self.opened.is_empty() {
            return Ok(());
        }
        self.lay(TokenKind::Newline)
    }

    /// Goes over a line: its content, and how many characters end it.
    pub(crate) fn line(&mut self, content: &str, ending: usize) -> Result<(), TokenError>
        requires room { self.old.place + length (chars content.now) + ending < 2 ^ 64 }
        requires lines { self.old.line + 1 < 2 ^ 32 }
        ensures gave { OnOk result (Gave self.old self.new (line_events (state_of self.old) (chars content.now))) }
        ensures state { OnOk result (state_of self.new ≡ behind_line (state_of self.old) (record { content = chars content.now; ending = ending })) }
        ensures failed { IfErr result (λ e. e ≢ TokenError.NoMemory → Failed self.old (line_events (state_of self.old) (chars content.now)) e) }
    {
        let nothing = self.gives_nothing(content);
        self.begin(content, nothing)?;
        self.pieces(content)?;
        self.end(nothing)?;
        self.place += ending;
        self.line += 1;
        Ok(())
    }

    // Closes the columns at the end of the text.
    fn close_columns(&mut self) -> Result<(), NoMemory>
        ensures { OnOk result (Gave self.old self.new (last_events (state_of self.old) [])) }
    {
        'columns: while let Some(column) = self.columns.pop() {
            if column > 0 {
                self.lay(TokenKind::Dedent)?;
            }
        }
        Ok(())
    }

    /// The tokens at the end of the text.
    pub(crate) fn finish(mut self) -> Result<TokenList, TokenError>
        ensures ok { IfOk result (λ ts. answer self (last_events (state_of self) self.opened) ≡ Ok ts) }
        ensures err { IfErr result (λ e. e ≢ TokenError.NoMemory → answer self (last_events (state_of self) self.opened) ≡ Err e) }
    {
        if let Some(open) = self.opened.first() {
            return Err(TokenError::BadToken { line: open.line });
        }
        self.close_columns()?;
        let Reader { tokens, .. } = self;
        Ok(tokens)
    }
}

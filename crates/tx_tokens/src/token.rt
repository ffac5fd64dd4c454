// Tokens and the list of them.
use std::alloc::AllocError;
use thiserror::Error;
use tx_text::{NoMemory, PyText, Sequence};

/// What a token is. Keywords are names here; who reads the tokens tells them apart.
#[derive(Debug, Drop)]
pub enum TokenKind {
    /// An identifier or a keyword.
    Name(PyText),
    /// An integer literal's value, which is never negative.
    Int(i128),
    /// A text literal's value: what stands between its quotes, escapes replaced.
    Text(PyText),
    /// An operator or a delimiter, by its characters.
    Mark(PyText),
    /// The end of a logical line.
    Newline,
    /// A line that stands further in than the one before.
    Indent,
    /// The end of what an Indent began.
    Dedent,
}

/// A token and where it stands. A Newline, Indent or Dedent stands at the end of the last token before it that is none
/// of these three: there its span is empty, and it has that token's line.
#[derive(Debug, Drop)]
pub struct Token {
    pub kind: TokenKind,
    /// The place of its first character, counted in characters of the text from 0.
    pub from: usize,
    /// The place behind its last character.
    pub to: usize,
    /// The number of its line, from 1.
    pub line: u32,
}

/// A list of tokens.
pub type TokenList = Sequence<Token>;

/// Why a text has no tokens: the first fault by its place in the text, with the number of its line.
#[derive(Clone, Copy, Debug, PartialEq, Eq, Error)]
pub enum TokenError {
    /// No token of the language, a closing bracket without its opening one, or an opening bracket that is never closed.
    /// The place of the latter is the end of the text, and its line the one of the first such bracket.
    #[error("line {line}: no token of the language")]
    BadToken { line: u32 },
    /// A line outside brackets whose column is none that is open, or that has a tab in front. Its place is its start.
    #[error("line {line}: bad indentation")]
    BadIndent { line: u32 },
    /// An integer above 2^127 - 1.
    #[error("line {line}: an integer of more than 128 bits")]
    WidthPast { line: u32 },
    #[error("out of memory")]
    NoMemory,
}

impl From<NoMemory> for TokenError {
    ghost use Rattle.std.specs.Prelude.{◌≡◌};
    ghost use Rattle.tx_tokens.specs.declared.token.TokenError.TheVariants as token_error;

    ghost from_gives = { λ _ e. e ≡ token_error.NoMemory };

    fn from(_: NoMemory) -> Self {
        TokenError::NoMemory
    }
}

impl From<AllocError> for TokenError {
    ghost use Rattle.std.specs.Prelude.{◌≡◌};
    ghost use Rattle.tx_tokens.specs.declared.token.TokenError.TheVariants as token_error;

    ghost from_gives = { λ _ e. e ≡ token_error.NoMemory };

    fn from(_: AllocError) -> Self {
        TokenError::NoMemory
    }
}

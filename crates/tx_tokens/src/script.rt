// The tokens of a script's text.
ghost use Rattle.std.specs.Prelude.{◌≡◌, ◌≢◌, ◌≤◌, ◌<◌, ◌+◌, ◌^◌, [], Err, Ok, OnOk, IfOk, IfErr, length};
ghost use Rattle.std.specs.Str.{chars};
ghost use Rattle.tx_tokens.specs.Lines.{lines};
ghost use Rattle.tx_tokens.specs.Layout.{events};
ghost use Rattle.tx_tokens.specs.Tokens.{events_of, most_characters, start, tokens_of};
ghost use Rattle.tx_tokens.specs.Calls.Reading.{answer, state_of};

use crate::cursor::{first_char, first_line};
use crate::reader::Reader;
use crate::token::{TokenError, TokenList};
use std::alloc::{AllocError, Global};
use tx_text::{PyText, Sequence};

/// The most characters of a script.
pub const MOST_CHARACTERS: usize = 262_144;

// How many characters of a script there are, about, for each of its tokens.
const CHARACTERS_A_TOKEN: usize = 4;

// One at the front of a text is dropped.
const BYTE_ORDER_MARK: char = '\u{FEFF}';

/// How many characters are dropped at the front of a text, and what follows them.
fn without_mark(text: &str) -> (usize, &str)
    ensures events { events_of (chars text.entry.now) ≡ events (start result.0) (lines (chars result.1.now)) }
    ensures size { result.0 + length (chars result.1.now) ≤ length (chars text.entry.now) }
{
    match first_char(text) {
        None => (0, text),
        Some((c, rest)) if c == BYTE_ORDER_MARK => (1, rest),
        Some(_) => (0, text),
    }
}

/// The tokens of the lines of a text.
fn read_lines(reader: Reader, text: &str) -> Result<TokenList, TokenError>
    requires room { reader.place + length (chars text.now) < 2 ^ 31 }
    requires lines { reader.line + length (chars text.now) < 2 ^ 31 }
    ensures ok { IfOk result (λ ts. answer reader (events (state_of reader) (lines (chars text.now))) ≡ Ok ts) }
    ensures err { IfErr result (λ e. e ≢ TokenError.NoMemory → answer reader (events (state_of reader) (lines (chars text.now))) ≡ Err e) }
{
    let mut reader = reader;
    let mut rest = text;
    'lines: while let Some((content, ending, behind)) = first_line(rest) {
        reader.line(content, ending)?;
        rest = behind;
    }
    reader.finish()
}

/// An empty list with room for the tokens of a text of so many characters. Most scripts have one for each four, and where
/// the room is doubled twice it is enough for any text.
fn roomy_list(alloc: Global, characters: usize) -> Result<TokenList, AllocError>
    ensures { IfOk result (λ ts. ts ≡ []) }
{
    let items = Vec::with_capacity(alloc, characters / CHARACTERS_A_TOKEN + 1)?;
    Ok(Sequence::from_vec(items))
}

/// The tokens of a script's text (Python Language Reference, "Lexical analysis", within the language), or its first fault
/// by place. `"x = 1\n"` gives a name, a mark, an integer and a Newline.
pub fn tokens(alloc: Global, t: &PyText) -> Result<TokenList, TokenError>
    requires { length t.now ≤ most_characters }
    ensures ok { IfOk result (λ ts. tokens_of t.now ≡ Ok ts) }
    ensures err { IfErr result (λ e. e ≢ TokenError.NoMemory → tokens_of t.now ≡ Err e) }
{
    let (dropped, script) = without_mark(t.as_str());
    let list = roomy_list(alloc, t.len())?;
    read_lines(Reader::new(alloc, list, dropped), script)
}

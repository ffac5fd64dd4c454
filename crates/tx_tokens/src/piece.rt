// The piece in front of the rest of a line.
ghost use Rattle.std.specs.Prelude.{◌≡◌, ◌∷◌, ◌+◌, ◌≤◌, length, drop, IfOk};
ghost use Rattle.std.specs.Str.{chars};
ghost use Rattle.tx_tokens.specs.Pieces.{first_cut};
ghost use Rattle.tx_tokens.specs.Calls.Walking.{IsCut};

use crate::integer::integer_piece;
use crate::literal::text_piece;
use crate::mark::mark_piece;
use crate::token::TokenKind;
use crate::word::{blanks, is_blank, is_digit, is_letter, is_quote, word};
use std::alloc::Global;
use tx_text::NoMemory;

/// What a piece of a line is.
#[derive(Debug, Drop)]
pub enum Piece {
    /// Blanks, or a comment.
    Passed,
    /// A token, which is written there.
    Written(TokenKind),
    /// No token of the language.
    Bad,
    /// An integer above 2^127 - 1.
    TooWide,
}

/// How many characters stand to the end of a line.
fn to_end(text: &str) -> usize
    ensures { result ≡ length (chars text.now) }
{
    text.chars().count()
}

/// The piece in front of a text that begins with a character, how many characters it has, and what follows it.
#[tactic(auto, using(crate::proofs::PieceLemmas::blank_piece, crate::proofs::PieceLemmas::comment_piece, crate::proofs::PieceLemmas::name_piece, crate::proofs::PieceLemmas::digit_piece, crate::proofs::PieceLemmas::quote_piece, crate::proofs::PieceLemmas::other_piece))]
pub(crate) fn first_piece<'a>(
    alloc: Global,
    first: char,
    behind: &'a str,
    text: &'a str,
) -> Result<(Piece, usize, &'a str), NoMemory>
    requires { chars text.now ≡ first ∷ chars behind.now }
    ensures { IfOk result (λ p. IsCut (first_cut first (chars behind.entry.now)) (chars text.entry.now) p.0 p.1 (chars p.2.now)) }
{
    if is_blank(first) {
        let (size, rest) = blanks(text);
        return Ok((Piece::Passed, size, rest));
    }
    if first == '#' {
        return Ok((Piece::Passed, to_end(text), ""));
    }
    if is_letter(first) {
        let (name, rest) = word(alloc, text)?;
        let size = name.len();
        return Ok((Piece::Written(TokenKind::Name(name)), size, rest));
    }
    if is_digit(first) {
        let (digits, rest) = word(alloc, text)?;
        let piece = integer_piece(digits.as_str(), rest);
        return Ok((piece, digits.len(), rest));
    }
    if is_quote(first) {
        return text_piece(alloc, first, behind);
    }
    mark_piece(alloc, first, behind, text)
}

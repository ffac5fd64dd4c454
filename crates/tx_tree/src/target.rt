// Names with their lines, and what an assignment or a loop assigns to.
use tx_text::{PyText, Sequence};

/// A name with the line of its token.
#[derive(Drop)]
pub struct Word {
    pub line: u32,
    pub text: PyText,
}

/// A list of names with their lines.
pub type Words = Sequence<Word>;

/// What an assignment, a `for` or a comprehension assigns to (Python Language Reference, "Assignment statements"). `comma`
/// says whether a comma stands behind the last name.
#[derive(Drop)]
pub enum Target {
    Name(Word),
    Names {
        names: Words,
        comma: bool,
    },
    /// Names in brackets; `line` is the line of the bracket.
    Bracketed {
        line: u32,
        names: Words,
        comma: bool,
    },
}

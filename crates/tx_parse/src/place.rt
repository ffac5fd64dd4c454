// Where an expression may stand: the production of the grammar that its place names.
ghost use Rattle.std.specs.Prelude.{◌≡◌};
ghost use Rattle.tx_parse.specs.Calls.Reader.{tighter, joint};

use crate::symbol::Symbol;
use tx_tree::Keyword;

/// The productions of an expression, from the loosest (Python Language Reference, "Operator precedence").
#[derive(Clone, Copy, Debug, PartialEq, Eq)]
pub(crate) enum Place {
    Test,
    Or,
    And,
    Not,
    Compare,
    Sum,
    Term,
    Unary,
    Postfix,
}

impl Place {
    /// The place of the parts.
    pub(crate) fn tighter(self) -> Place
        ensures { result ≡ tighter self }
    {
        match self {
            Place::Test => Place::Or,
            Place::Or => Place::And,
            Place::And => Place::Not,
            Place::Not => Place::Compare,
            Place::Compare => Place::Sum,
            Place::Sum => Place::Term,
            Place::Term => Place::Unary,
            Place::Unary => Place::Postfix,
            Place::Postfix => Place::Postfix,
        }
    }

    /// The word between the operands at `Or` or `And`.
    pub(crate) fn joint(self) -> Symbol
        ensures { result ≡ joint self }
    {
        match self {
            Place::Or => Symbol::Keyword(Keyword::Or),
            _ => Symbol::Keyword(Keyword::And),
        }
    }
}

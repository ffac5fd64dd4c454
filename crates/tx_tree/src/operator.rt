// Operators.
ghost use Rattle.std.specs.Prelude.{◌≡◌};
ghost use Rattle.tx_tree.specs.Words.{binary_word, unary_word, compare_word};

/// An operator of a sum or of a term (Language Reference, "Binary arithmetic operations").
#[derive(Clone, Copy, Debug, PartialEq, Eq)]
pub enum BinaryOp {
    Add,
    Sub,
    Mul,
    FloorDiv,
    Mod,
}

impl BinaryOp {
    /// The operator as it is written.
    pub fn word(self) -> &'static str
        ensures { result.now ≡ binary_word self }
    {
        match self {
            BinaryOp::Add => "+",
            BinaryOp::Sub => "-",
            BinaryOp::Mul => "*",
            BinaryOp::FloorDiv => "//",
            BinaryOp::Mod => "%",
        }
    }
}

/// A sign (Language Reference, "Unary arithmetic and bitwise operations").
#[derive(Clone, Copy, Debug, PartialEq, Eq)]
pub enum UnaryOp {
    Minus,
    Plus,
}

impl UnaryOp {
    /// The sign as it is written.
    pub fn word(self) -> &'static str
        ensures { result.now ≡ unary_word self }
    {
        match self {
            UnaryOp::Minus => "-",
            UnaryOp::Plus => "+",
        }
    }
}

/// An operator of a comparison (Language Reference, "Comparisons").
#[derive(Clone, Copy, Debug, PartialEq, Eq)]
pub enum CompareOp {
    Equal,
    NotEqual,
    Less,
    LessEqual,
    Greater,
    GreaterEqual,
    In,
    NotIn,
    Is,
    IsNot,
}

impl CompareOp {
    /// The operator as it is written, of two words with one space between them.
    pub fn word(self) -> &'static str
        ensures { result.now ≡ compare_word self }
    {
        match self {
            CompareOp::Equal => "==",
            CompareOp::NotEqual => "!=",
            CompareOp::Less => "<",
            CompareOp::LessEqual => "<=",
            CompareOp::Greater => ">",
            CompareOp::GreaterEqual => ">=",
            CompareOp::In => "in",
            CompareOp::NotIn => "not in",
            CompareOp::Is => "is",
            CompareOp::IsNot => "is not",
        }
    }
}

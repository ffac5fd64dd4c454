// Expressions.
use crate::{BinaryOp, CompareOp, Target, UnaryOp, Word};
use sqlite_items::Boxed;
use tx_text::{PyText, Sequence};

/// A list of expressions.
pub type Exprs = Sequence<Expr>;

/// The pairs of a dictionary display.
pub type Pairs = Sequence<Pair>;

/// What stands behind the first operand of a comparison.
pub type Operands = Sequence<Operand>;

/// An expression (Python Language Reference, "Expressions"). `line` is the line of the first token; `comma` says whether
/// a comma stands behind the last item.
#[cycle(expr)]
#[derive(Drop)]
pub enum Expr {
    Nil {
        line: u32,
    },
    Truth {
        line: u32,
        value: bool,
    },
    Int {
        line: u32,
        value: i128,
    },
    Text {
        line: u32,
        value: PyText,
    },
    Name {
        line: u32,
        name: PyText,
    },
    /// An expression in brackets.
    Paren {
        line: u32,
        inner: Boxed<Expr>,
    },
    /// A tuple in brackets.
    Tuple {
        line: u32,
        items: Exprs,
        comma: bool,
    },
    /// A tuple without brackets, on the right of `=` or behind `return`.
    BareTuple {
        line: u32,
        items: Exprs,
        comma: bool,
    },
    List {
        line: u32,
        items: Exprs,
        comma: bool,
    },
    Dict {
        line: u32,
        pairs: Pairs,
        comma: bool,
    },
    Comprehension {
        line: u32,
        element: Boxed<Expr>,
        target: Target,
        iterable: Boxed<Expr>,
        condition: Maybe,
    },
    /// A call of a function by its name.
    Call {
        line: u32,
        name: PyText,
        args: Exprs,
        comma: bool,
    },
    Method {
        line: u32,
        receiver: Boxed<Expr>,
        word: Word,
        args: Exprs,
        comma: bool,
    },
    Index {
        line: u32,
        base: Boxed<Expr>,
        at: Boxed<Expr>,
    },
    Slice {
        line: u32,
        base: Boxed<Expr>,
        from: Maybe,
        to: Maybe,
    },
    Unary {
        line: u32,
        op: UnaryOp,
        operand: Boxed<Expr>,
    },
    Binary {
        line: u32,
        left: Boxed<Expr>,
        op: BinaryOp,
        right: Boxed<Expr>,
    },
    /// A comparison, or a chain of them.
    Compare {
        line: u32,
        first: Boxed<Expr>,
        others: Operands,
    },
    Not {
        line: u32,
        operand: Boxed<Expr>,
    },
    And {
        line: u32,
        first: Boxed<Expr>,
        others: Exprs,
    },
    Or {
        line: u32,
        first: Boxed<Expr>,
        others: Exprs,
    },
    /// `then if test else other`.
    Conditional {
        line: u32,
        then: Boxed<Expr>,
        test: Boxed<Expr>,
        other: Boxed<Expr>,
    },
}

/// An expression that may be left out.
#[cycle(expr)]
#[derive(Drop)]
pub enum Maybe {
    Absent,
    Present(Boxed<Expr>),
}

/// A pair of a dictionary display.
#[cycle(expr)]
#[derive(Drop)]
pub struct Pair {
    pub key: Expr,
    pub value: Expr,
}

/// An operand of a comparison, behind its operator.
#[cycle(expr)]
#[derive(Drop)]
pub struct Operand {
    pub op: CompareOp,
    pub right: Expr,
}

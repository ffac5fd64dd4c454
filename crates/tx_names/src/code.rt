// The tree of a bound function: each name is a slot, and each word stands for what it names.
use crate::Role;
use sqlite_items::Boxed;
use std::rc::Rc;
use tx_text::{PyText, Sequence};
use tx_tree::{BinaryOp, Builtin, CompareOp, Method, UnaryOp, Walk};

/// A list of slots.
pub type Slots = Sequence<usize>;

/// What an assignment, a loop or a comprehension assigns to: a slot, or slots to which the items of a value go.
#[derive(Drop)]
pub enum BoundTarget {
    One(usize),
    Several(Slots),
}

/// A list of expressions.
pub type BoundExprs = Sequence<BoundExpr>;

/// The pairs of a dictionary display.
pub type BoundPairs = Sequence<BoundPair>;

/// The operands of a comparison behind the first.
pub type BoundOperands = Sequence<BoundOperand>;

/// A list of statements.
pub type BoundStmts = Sequence<BoundStmt>;

/// The arms of an `if`.
pub type BoundArms = Sequence<BoundArm>;

/// An expression (Python Language Reference, "Expressions").
#[cycle(routine)]
#[derive(Drop)]
pub enum BoundExpr {
    Nil,
    Truth(bool),
    Int(i128),
    Text(PyText),
    /// The value of a local name.
    Local(usize),
    /// The cell of the row in the column of this name.
    Cell(PyText),
    /// An expression in brackets.
    Paren(Boxed<BoundExpr>),
    Tuple(BoundExprs),
    List(BoundExprs),
    Dict(BoundPairs),
    Comprehension {
        element: Boxed<BoundExpr>,
        target: BoundTarget,
        iterable: Iterable,
        condition: BoundMaybe,
    },
    /// A call of an earlier def.
    Call(Rc<Routine>, BoundExprs),
    Builtin(Builtin, BoundExprs),
    Method(Boxed<BoundExpr>, Method, BoundExprs),
    Index(Boxed<BoundExpr>, Boxed<BoundExpr>),
    Slice {
        base: Boxed<BoundExpr>,
        from: BoundMaybe,
        to: BoundMaybe,
    },
    Unary(UnaryOp, Boxed<BoundExpr>),
    Binary(Boxed<BoundExpr>, BinaryOp, Boxed<BoundExpr>),
    Compare(Boxed<BoundExpr>, BoundOperands),
    Not(Boxed<BoundExpr>),
    And(Boxed<BoundExpr>, BoundExprs),
    Or(Boxed<BoundExpr>, BoundExprs),
    /// `then if test else other`.
    Conditional {
        then: Boxed<BoundExpr>,
        test: Boxed<BoundExpr>,
        other: Boxed<BoundExpr>,
    },
}

/// An expression that may be left out.
#[cycle(routine)]
#[derive(Drop)]
pub enum BoundMaybe {
    Absent,
    Present(Boxed<BoundExpr>),
}

/// What a `for` or a comprehension goes over: a value, a walk, or a view of a dictionary.
#[cycle(routine)]
#[derive(Drop)]
pub enum Iterable {
    Value(Boxed<BoundExpr>),
    Walk(Walk, BoundExprs),
    View(Boxed<BoundExpr>, Walk),
}

/// A statement (Python Language Reference, "Simple statements" and "Compound statements").
#[cycle(routine)]
#[derive(Drop)]
pub enum BoundStmt {
    Pass,
    Break,
    Continue,
    Return(BoundMaybe),
    Assign(BoundTarget, BoundExpr),
    /// `name += value` and its kin.
    Augment(usize, BinaryOp, BoundExpr),
    /// An expression alone.
    Express(BoundExpr),
    /// The arms of an `if`, and what stands behind `else`.
    If(BoundArms, BoundStmts),
    For {
        target: BoundTarget,
        iterable: Iterable,
        body: BoundStmts,
    },
}

/// What a lambda gives, or what a def does.
#[cycle(routine)]
#[derive(Drop)]
pub enum BoundBody {
    Gives(BoundExpr),
    Does(BoundStmts),
}

/// A pair of a dictionary display.
#[cycle(routine)]
#[derive(Drop)]
pub struct BoundPair {
    pub key: BoundExpr,
    pub value: BoundExpr,
}

/// An operand of a comparison, behind its operator.
#[cycle(routine)]
#[derive(Drop)]
pub struct BoundOperand {
    pub op: CompareOp,
    pub right: BoundExpr,
}

/// An arm of an `if`.
#[cycle(routine)]
#[derive(Drop)]
pub struct BoundArm {
    pub test: BoundExpr,
    pub body: BoundStmts,
}

/// The code of a function: what it takes, the slots of its parameters that take values, how many slots it has, which are those
/// below, and its body. A def that it calls is shared.
#[cycle(routine)]
#[derive(Drop)]
pub struct Routine {
    pub role: Role,
    pub params: Slots,
    pub slots: usize,
    pub body: BoundBody,
}

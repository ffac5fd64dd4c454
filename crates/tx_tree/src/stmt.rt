// Statements and suites.
use crate::{BinaryOp, Expr, Maybe, Target};
use sqlite_items::Boxed;
use tx_text::{PyText, Sequence};

/// A list of statements.
pub type Stmts = Sequence<Stmt>;

/// The arms of an `if` behind `elif`.
pub type Arms = Sequence<Arm>;

/// A statement (Python Language Reference, "Simple statements" and "Compound statements"). `line` is the line of the
/// first token.
#[cycle(stmt)]
#[derive(Drop)]
pub enum Stmt {
    Pass {
        line: u32,
    },
    Break {
        line: u32,
    },
    Continue {
        line: u32,
    },
    Return {
        line: u32,
        value: Maybe,
    },
    Assign {
        line: u32,
        target: Target,
        value: Expr,
    },
    /// `name += value` and its kin.
    Augment {
        line: u32,
        name: PyText,
        op: BinaryOp,
        value: Expr,
    },
    /// An expression alone.
    Express {
        line: u32,
        value: Expr,
    },
    If {
        line: u32,
        test: Expr,
        suite: Suite,
        arms: Arms,
        otherwise: Otherwise,
    },
    For {
        line: u32,
        target: Target,
        iterable: Expr,
        suite: Suite,
    },
}

/// What a colon leads to.
#[cycle(stmt)]
#[derive(Drop)]
pub enum Suite {
    /// A simple statement on the same line.
    Line(Boxed<Stmt>),
    /// Statements on lines of their own.
    Indented(Stmts),
}

/// An arm behind `elif`.
#[cycle(stmt)]
#[derive(Drop)]
pub struct Arm {
    pub test: Expr,
    pub suite: Suite,
}

/// What stands behind `else`.
#[cycle(stmt)]
#[derive(Drop)]
pub enum Otherwise {
    Absent,
    Present(Suite),
}

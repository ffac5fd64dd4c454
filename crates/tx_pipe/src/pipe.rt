// The operators of a script, by number.
ghost use Rattle.std.specs.Prelude.{◌≡◌};
ghost use Rattle.tx_pipe.specs.Pipe.{operator_of, verb_of};

use crate::Verb;
use tx_base::Class;
use tx_names::Bound;
use tx_text::{PyText, Sequence, Texts};
use tx_values::{Naming, Value};

/// What a `map` makes of the results of its function: a row whose columns have these names, or one cell.
#[derive(Drop)]
pub enum MapTo {
    Columns(Texts),
    Column(PyText),
}

/// An operator with its arguments. `right` is the number of a join's right input.
#[derive(Drop)]
pub enum Operator {
    Csv {
        file: PyText,
        naming: Naming,
    },
    Map {
        f: Bound,
        to: MapTo,
    },
    Filter {
        f: Bound,
    },
    WithColumn {
        name: PyText,
        f: Bound,
    },
    MapColumn {
        name: PyText,
        f: Bound,
    },
    SelectColumns {
        names: Texts,
    },
    RenameColumn {
        old: PyText,
        new_name: PyText,
    },
    Join {
        right: u32,
        left_key: PyText,
        right_key: PyText,
    },
    LeftJoin {
        right: u32,
        left_key: PyText,
        right_key: PyText,
    },
    Unique,
    Aggregate {
        f: Bound,
        init: Value,
        name: PyText,
    },
    ToCsv {
        file: PyText,
    },
}

impl Operator {
    /// The word of the operator.
    pub fn verb(&self) -> Verb
        ensures { result ≡ verb_of (operator_of self.now) }
    {
        match self {
            Operator::Csv { .. } => Verb::Csv,
            Operator::Map { .. } => Verb::Map,
            Operator::Filter { .. } => Verb::Filter,
            Operator::WithColumn { .. } => Verb::WithColumn,
            Operator::MapColumn { .. } => Verb::MapColumn,
            Operator::SelectColumns { .. } => Verb::SelectColumns,
            Operator::RenameColumn { .. } => Verb::RenameColumn,
            Operator::Join { .. } => Verb::Join,
            Operator::LeftJoin { .. } => Verb::LeftJoin,
            Operator::Unique => Verb::Unique,
            Operator::Aggregate { .. } => Verb::Aggregate,
            Operator::ToCsv { .. } => Verb::ToCsv,
        }
    }
}

/// What is done with an exception of a class that this one catches: another function is tried on the same input, or the
/// row is dropped.
#[derive(Drop)]
pub enum Handler {
    Resolve(Class, Bound),
    Ignore(Class),
}

/// The handlers of an operator, in the order in which they are gone through.
pub type Handlers = Sequence<Handler>;

/// An operator in a pipe. `input` is the number of its input, of the left one in a join, and 0 for a source; `line` is the
/// line of its word in the script.
#[derive(Drop)]
pub struct Node {
    pub operator: Operator,
    pub input: u32,
    pub handlers: Handlers,
    pub line: u32,
}

/// The operators of a script by number: operator 1 is the first.
pub type Pipe = Sequence<Node>;

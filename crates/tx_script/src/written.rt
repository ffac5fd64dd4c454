// A script as it is written: operators and handlers whose functions and pipelines are words of the text.
use tx_base::Class;
use tx_pipe::MapTo;
use tx_text::{PyText, Sequence, Texts};
use tx_tree::{Block, Expr};
use tx_values::{Naming, Value};

/// A name with the line of its token.
#[derive(Drop)]
pub(crate) struct Named<'a> {
    pub(crate) line: u32,
    pub(crate) name: &'a PyText,
}

/// A function as it is written: a lambda, or the name of a def. `line` is the line of the first token.
#[derive(Drop)]
pub(crate) enum Code<'a> {
    Lambda {
        line: u32,
        params: &'a Texts,
        body: &'a Expr,
    },
    Def {
        line: u32,
        name: &'a PyText,
    },
}

/// An operator with its arguments as they are written.
#[derive(Drop)]
pub(crate) enum Form<'a> {
    Csv {
        file: &'a PyText,
        naming: Naming,
    },
    Map {
        f: Code<'a>,
        to: MapTo,
    },
    Filter {
        f: Code<'a>,
    },
    WithColumn {
        name: &'a PyText,
        f: Code<'a>,
    },
    MapColumn {
        name: &'a PyText,
        f: Code<'a>,
    },
    SelectColumns {
        names: Texts,
    },
    RenameColumn {
        old: &'a PyText,
        new_name: &'a PyText,
    },
    Join {
        right: Named<'a>,
        left_key: &'a PyText,
        right_key: &'a PyText,
    },
    LeftJoin {
        right: Named<'a>,
        left_key: &'a PyText,
        right_key: &'a PyText,
    },
    Unique,
    Aggregate {
        f: Code<'a>,
        init: Value,
        name: &'a PyText,
    },
    ToCsv {
        file: &'a PyText,
    },
}

/// A handler as it is written.
#[derive(Drop)]
pub(crate) enum Handled<'a> {
    Resolve(Class, Code<'a>),
    Ignore(Class),
}

/// An operator or a handler.
#[derive(Drop)]
pub(crate) enum Part<'a> {
    Operator(Form<'a>),
    Handler(Handled<'a>),
}

/// An operator or a handler with the line of its word.
#[derive(Drop)]
pub(crate) struct Link<'a> {
    pub(crate) line: u32,
    pub(crate) part: Part<'a>,
}

pub(crate) type Links<'a> = Sequence<Link<'a>>;

/// A block, and the links of its chain; a source at the head of a chain is the first of them.
#[derive(Drop)]
pub(crate) struct Entry<'a> {
    pub(crate) block: &'a Block,
    pub(crate) links: Links<'a>,
}

pub(crate) type Entries<'a> = Sequence<Entry<'a>>;

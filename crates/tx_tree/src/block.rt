// Blocks: definitions of functions, and chains of operators.
use crate::{Expr, Suite, Word};
use tx_text::{PyText, Sequence, Texts};

/// The arguments of a link or of a head.
pub type ArgList = Sequence<Arg>;

/// The links of a chain.
pub type Links = Sequence<Link>;

/// A block of a script: what stands from one line without indent to before the next.
#[derive(Drop)]
pub enum Block {
    /// `def name(params): suite`.
    Def {
        line: u32,
        name: PyText,
        params: Texts,
        comma: bool,
        suite: Suite,
    },
    /// `name = chain`.
    Named {
        line: u32,
        name: PyText,
        chain: Chain,
    },
    /// A chain without a name.
    Alone(Chain),
}

/// A chain of operators and handlers, which may stand in brackets. `line` is the line of its first token, the bracket if
/// there is one.
#[derive(Drop)]
pub struct Chain {
    pub line: u32,
    pub in_brackets: bool,
    pub head: Head,
    pub links: Links,
}

/// What a chain begins with: a source with arguments, or the name of a pipeline.
#[derive(Drop)]
pub struct Head {
    pub word: Word,
    pub args: Option<Args>,
}

/// An operator or a handler. `line` is the line of its dot.
#[derive(Drop)]
pub struct Link {
    pub line: u32,
    pub word: Word,
    pub args: Args,
}

/// Arguments in brackets, and whether a comma stands behind the last.
#[derive(Drop)]
pub struct Args {
    pub items: ArgList,
    pub comma: bool,
}

/// An argument of a link or of a head.
#[derive(Drop)]
pub enum Arg {
    /// `lambda params: body`.
    Lambda {
        line: u32,
        params: Texts,
        body: Expr,
    },
    Plain(Expr),
}

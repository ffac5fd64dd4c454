//! The trees of a script's blocks: a node for each alternative of the grammar that adds a token.
#![tactic(auto)]

mod block;
mod count;
mod depths;
mod expr;
mod form;
mod function;
mod laws;
mod operator;
mod stmt;
mod symbol;
mod takes;
mod target;

pub use block::{Arg, ArgList, Args, Block, Chain, Head, Link, Links};
pub use count::spell_len;
pub use depths::depth;
pub use expr::{Expr, Exprs, Maybe, Operand, Operands, Pair, Pairs};
pub use form::well_formed;
pub use function::{Builtin, Method, Walk, builtin_named, method_named, walk_named};
pub use laws::{lines_are_left_out, spelling_is_the_grammar};
pub use operator::{BinaryOp, CompareOp, UnaryOp};
pub use stmt::{Arm, Arms, Otherwise, Stmt, Stmts, Suite};
pub use symbol::{Keyword, Mark, keyword_named, mark_named};
pub use target::{Target, Word, Words};

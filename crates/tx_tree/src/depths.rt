// How deep a tree is.
ghost use Rattle.std.specs.Prelude.{◌≡◌, ◌-◌, ◌^◌, min, map, IsTrue};
ghost use Rattle.tx_tree.specs.Tree.{tree_of, trees, pair_of, pair_trees, operand_of, operands, maybe_of, statement_of, statements, body_of, arm_of, tail, otherwise_of, arg_of, args_of, link_of, chain_of, block_of, nothing};
ghost use Rattle.tx_tree.specs.Calls.Operation.{is_operation};
ghost use Rattle.tx_tree.specs.Depth.{depth, depth_each, depth_pairs, depth_operands, depth_maybe, depth_statement, depth_statements, depth_body, depth_tail, depth_args, depth_links, depth_chain, depth_block};

use crate::{Arg, Arm, Block, Chain, Expr, Link, Maybe, Operand, Otherwise, Pair, Stmt, Suite};

/// How deep a block is: the greatest depth of its statements or arguments. An expression or statement has depth 1, and one
/// more than the deepest of its parts, if it has any: `a` has 1, `(a)` has 2, `if a: pass` has 2. A `def`, a chain and a
/// `lambda` add nothing. A depth past the type's last value stands there.
pub fn depth(b: &Block) -> u32
    ensures { result ≡ min (depth_block (block_of b.now)) (2 ^ 32 - 1) }
{
    match b {
        Block::Def { suite, .. } => depth_of_suite(suite),
        Block::Named { chain, .. } => depth_of_chain(chain),
        Block::Alone(chain) => depth_of_chain(chain),
    }
}

fn depth_of_chain(chain: &Chain) -> u32
    ensures { result ≡ min (depth_chain (chain_of chain.now)) (2 ^ 32 - 1) }
{
    let links = depth_of_links(chain.links.as_slice());
    match &chain.head.args {
        Some(args) => depth_of_args(args.items.as_slice()).max(links),
        None => links,
    }
}

fn depth_of_links(links: &[Link]) -> u32
    ensures { result ≡ min (depth_links (map link_of links.now)) (2 ^ 32 - 1) }
{
    let mut most: u32 = 0;
    for link in links {
        most = most.max(depth_of_args(link.args.items.as_slice()));
    }
    most
}

fn depth_of_args(args: &[Arg]) -> u32
    ensures { result ≡ min (depth_args (map arg_of args.now)) (2 ^ 32 - 1) }
{
    let mut most: u32 = 0;
    for arg in args {
        most = most.max(match arg {
            Arg::Lambda { body, .. } => depth_of_expr(body),
            Arg::Plain(body) => depth_of_expr(body),
        });
    }
    most
}

#[tactic(auto, using(crate::proofs::Tails::if_tree, crate::proofs::Tails::depth_arms))]
#[cycle(statement)]
fn depth_of_stmt(statement: &Stmt) -> u32
    ensures { result ≡ min (depth_statement (statement_of statement.now)) (2 ^ 32 - 1) }
{
    match statement {
        Stmt::Return { value, .. } => depth_of_maybe(value).saturating_add(1),
        Stmt::Assign { value, .. } => depth_of_expr(value).saturating_add(1),
        Stmt::Augment { value, .. } => depth_of_expr(value).saturating_add(1),
        Stmt::Express { value, .. } => depth_of_expr(value).saturating_add(1),
        Stmt::If {
            test,
            suite,
            arms,
            otherwise,
            ..
        } => depth_of_expr(test)
            .max(depth_of_suite(suite))
            .max(depth_of_arms(arms.as_slice()))
            .max(depth_of_otherwise(otherwise))
            .saturating_add(1),
        Stmt::For {
            iterable,
            suite,
            ..
        } => depth_of_expr(iterable)
            .max(depth_of_suite(suite))
            .saturating_add(1),
        _ => 1,
    }
}

#[cycle(statement)]
fn depth_of_suite(suite: &Suite) -> u32
    ensures { result ≡ min (depth_body (body_of suite.now)) (2 ^ 32 - 1) }
{
    match suite {
        Suite::Line(statement) => depth_of_stmt(statement.get()),
        Suite::Indented(statements) => depth_of_stmts(statements.as_slice()),
    }
}

#[cycle(statement)]
fn depth_of_stmts(body: &[Stmt]) -> u32
    ensures { result ≡ min (depth_statements (statements (map statement_of body.now))) (2 ^ 32 - 1) }
{
    let mut most: u32 = 0;
    for statement in body {
        most = most.max(depth_of_stmt(statement));
    }
    most
}

#[cycle(statement)]
fn depth_of_arms(arms: &[Arm]) -> u32
    ensures { result ≡ min (depth_tail (tail (map arm_of arms.now) nothing)) (2 ^ 32 - 1) }
{
    let mut most: u32 = 0;
    for arm in arms {
        most = most
            .max(depth_of_expr(&arm.test))
            .max(depth_of_suite(&arm.suite));
    }
    most
}

#[cycle(statement)]
fn depth_of_otherwise(otherwise: &Otherwise) -> u32
    ensures { result ≡ min (depth_tail (otherwise_of otherwise.now)) (2 ^ 32 - 1) }
{
    match otherwise {
        Otherwise::Absent => 0,
        Otherwise::Present(suite) => depth_of_suite(suite),
    }
}

#[cycle(expression)]
fn depth_of_expr(e: &Expr) -> u32
    ensures { result ≡ min (depth (tree_of e.now)) (2 ^ 32 - 1) }
{
    match e {
        Expr::Nil { .. } => 1,
        Expr::Truth { .. } => 1,
        Expr::Int { .. } => 1,
        Expr::Text { .. } => 1,
        Expr::Name { .. } => 1,
        Expr::Paren { inner, .. } => depth_of_expr(inner.get()).saturating_add(1),
        Expr::Tuple { items, .. } => depth_of_exprs(items.as_slice()).saturating_add(1),
        Expr::BareTuple { items, .. } => depth_of_exprs(items.as_slice()).saturating_add(1),
        Expr::List { items, .. } => depth_of_exprs(items.as_slice()).saturating_add(1),
        Expr::Dict { pairs, .. } => depth_of_pairs(pairs.as_slice()).saturating_add(1),
        Expr::Comprehension {
            element,
            iterable,
            condition,
            ..
        } => depth_of_expr(element.get())
            .max(depth_of_expr(iterable.get()))
            .max(depth_of_maybe(condition))
            .saturating_add(1),
        Expr::Call { args, .. } => depth_of_exprs(args.as_slice()).saturating_add(1),
        Expr::Method { receiver, args, .. } => depth_of_expr(receiver.get())
            .max(depth_of_exprs(args.as_slice()))
            .saturating_add(1),
        Expr::Index { base, at, .. } => depth_of_expr(base.get())
            .max(depth_of_expr(at.get()))
            .saturating_add(1),
        Expr::Slice { base, from, to, .. } => depth_of_expr(base.get())
            .max(depth_of_maybe(from))
            .max(depth_of_maybe(to))
            .saturating_add(1),
        _ => depth_of_operation(e),
    }
}

// Of an expression with an operator.
#[cycle(expression)]
fn depth_of_operation(e: &Expr) -> u32
    requires { IsTrue (is_operation (tree_of e.now)) }
    ensures { result ≡ min (depth (tree_of e.now)) (2 ^ 32 - 1) }
{
    match e {
        Expr::Unary { operand, .. } | Expr::Not { operand, .. } => {
            depth_of_expr(operand.get()).saturating_add(1)
        }
        Expr::Binary { left, right, .. } => depth_of_expr(left.get())
            .max(depth_of_expr(right.get()))
            .saturating_add(1),
        Expr::Compare { first, others, .. } => depth_of_expr(first.get())
            .max(depth_of_operands(others.as_slice()))
            .saturating_add(1),
        Expr::And { first, others, .. } | Expr::Or { first, others, .. } => {
            depth_of_expr(first.get())
                .max(depth_of_exprs(others.as_slice()))
                .saturating_add(1)
        }
        Expr::Conditional {
            then,
            test,
            other,
            ..
        } => depth_of_expr(then.get())
            .max(depth_of_expr(test.get()))
            .max(depth_of_expr(other.get()))
            .saturating_add(1),
        _ => 1,
    }
}

#[cycle(expression)]
fn depth_of_exprs(items: &[Expr]) -> u32
    ensures { result ≡ min (depth_each (trees (map tree_of items.now))) (2 ^ 32 - 1) }
{
    let mut most: u32 = 0;
    for item in items {
        most = most.max(depth_of_expr(item));
    }
    most
}

#[cycle(expression)]
fn depth_of_pairs(pairs: &[Pair]) -> u32
    ensures { result ≡ min (depth_pairs (pair_trees (map pair_of pairs.now))) (2 ^ 32 - 1) }
{
    let mut most: u32 = 0;
    for pair in pairs {
        most = most
            .max(depth_of_expr(&pair.key))
            .max(depth_of_expr(&pair.value));
    }
    most
}

#[cycle(expression)]
fn depth_of_operands(others: &[Operand]) -> u32
    ensures { result ≡ min (depth_operands (operands (map operand_of others.now))) (2 ^ 32 - 1) }
{
    let mut most: u32 = 0;
    for operand in others {
        most = most.max(depth_of_expr(&operand.right));
    }
    most
}

#[cycle(expression)]
fn depth_of_maybe(e: &Maybe) -> u32
    ensures { result ≡ min (depth_maybe (maybe_of e.now)) (2 ^ 32 - 1) }
{
    match e {
        Maybe::Absent => 0,
        Maybe::Present(inner) => depth_of_expr(inner.get()),
    }
}

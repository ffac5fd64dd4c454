// How many tokens the spelling of a tree has.
ghost use Rattle.std.specs.Prelude.{◌≡◌, ◌+◌, ◌-◌, ◌^◌, min, map, length, IsTrue};
ghost use Rattle.tx_tree.specs.Tree.{tree_of, trees, pair_of, pair_trees, operand_of, operands, maybe_of, statement_of, statements, body_of, arm_of, tail, otherwise_of, arg_of, args_of, link_of, chain_of, block_of, nothing};
ghost use Rattle.tx_tree.specs.Spell.{spelling};
ghost use Rattle.tx_tree.specs.Calls.Operation.{is_operation};
ghost use Rattle.tx_tree.specs.Calls.Count.{count, count_each, size, count_pairs, pairs_size, count_operands, count_maybe, count_condition, count_statement, count_statements, count_body, count_tail, count_commas, count_target, count_op, sum_of_args, count_args, count_links, count_chain, count_block};

use crate::{
    Arg, Args, Arm, Block, Chain, CompareOp, Expr, Link, Maybe, Operand, Otherwise, Pair, Stmt,
    Suite, Target,
};

/// How many tokens the spelling of a block has, with those of its layout. A number past the type's last value stands there.
#[tactic(auto, using(crate::proofs::Lengths::length_block))]
pub fn spell_len(b: &Block) -> usize
    ensures { result ≡ min (length (spelling (block_of b.now))) (2 ^ 64 - 1) }
{
    count_of_block(b)
}

// The number of a list's commas: between its items, and behind the last.
fn count_of_commas(items: usize, comma: bool) -> usize
    ensures { result ≡ min (count_commas items comma) (2 ^ 64 - 1) }
{
    items.saturating_sub(1).saturating_add(comma as usize)
}

fn count_of_block(b: &Block) -> usize
    ensures { result ≡ min (count_block (block_of b.now)) (2 ^ 64 - 1) }
{
    match b {
        Block::Def {
            params,
            comma,
            suite,
            ..
        } => params
            .len()
            .saturating_add(count_of_commas(params.len(), *comma))
            .saturating_add(count_of_suite(suite))
            .saturating_add(5),
        Block::Named { chain, .. } => count_of_chain(chain).saturating_add(3),
        Block::Alone(chain) => count_of_chain(chain).saturating_add(1),
    }
}

fn count_of_chain(chain: &Chain) -> usize
    ensures { result ≡ min (count_chain (chain_of chain.now)) (2 ^ 64 - 1) }
{
    let brackets: usize = if chain.in_brackets { 2 } else { 0 };
    let args = match &chain.head.args {
        Some(args) => count_of_args(args),
        None => 0,
    };
    count_of_links(chain.links.as_slice())
        .saturating_add(args)
        .saturating_add(1)
        .saturating_add(brackets)
}

fn count_of_links(links: &[Link]) -> usize
    ensures { result ≡ min (count_links (map link_of links.now)) (2 ^ 64 - 1) }
{
    let mut sum: usize = 0;
    for link in links {
        sum = sum
            .saturating_add(count_of_args(&link.args))
            .saturating_add(2);
    }
    sum
}

fn count_of_args(args: &Args) -> usize
    ensures { result ≡ min (count_args (args_of args.now)) (2 ^ 64 - 1) }
{
    count_of_arg_list(args.items.as_slice())
        .saturating_add(count_of_commas(args.items.len(), args.comma))
        .saturating_add(2)
}

fn count_of_arg_list(args: &[Arg]) -> usize
    ensures { result ≡ min (sum_of_args (map arg_of args.now)) (2 ^ 64 - 1) }
{
    let mut sum: usize = 0;
    for arg in args {
        sum = sum.saturating_add(match arg {
            Arg::Lambda { params, body, .. } => params
                .len()
                .saturating_add(count_of_commas(params.len(), false))
                .saturating_add(count_of_expr(body))
                .saturating_add(2),
            Arg::Plain(body) => count_of_expr(body),
        });
    }
    sum
}

fn count_of_target(target: &Target) -> usize
    ensures { result ≡ min (count_target target.now) (2 ^ 64 - 1) }
{
    match target {
        Target::Name(_) => 1,
        Target::Names { names, comma } => names
            .len()
            .saturating_add(count_of_commas(names.len(), *comma)),
        Target::Bracketed { names, comma, .. } => names
            .len()
            .saturating_add(count_of_commas(names.len(), *comma))
            .saturating_add(2),
    }
}

#[tactic(auto, using(crate::proofs::Tails::if_tree, crate::proofs::Tails::count_arms))]
#[cycle(statement)]
fn count_of_stmt(statement: &Stmt) -> usize
    ensures { result ≡ min (count_statement (statement_of statement.now)) (2 ^ 64 - 1) }
{
    match statement {
        Stmt::Return { value, .. } => count_of_maybe(value).saturating_add(2),
        Stmt::Assign { target, value, .. } => count_of_target(target)
            .saturating_add(count_of_expr(value))
            .saturating_add(2),
        Stmt::Augment { value, .. } => count_of_expr(value).saturating_add(3),
        Stmt::Express { value, .. } => count_of_expr(value).saturating_add(1),
        Stmt::If {
            test,
            suite,
            arms,
            otherwise,
            ..
        } => count_of_expr(test)
            .saturating_add(count_of_suite(suite))
            .saturating_add(count_of_arms(arms.as_slice()))
            .saturating_add(count_of_otherwise(otherwise))
            .saturating_add(2),
        Stmt::For {
            target,
            iterable,
            suite,
            ..
        } => count_of_target(target)
            .saturating_add(count_of_expr(iterable))
            .saturating_add(count_of_suite(suite))
            .saturating_add(3),
        _ => 2,
    }
}

#[cycle(statement)]
fn count_of_suite(suite: &Suite) -> usize
    ensures { result ≡ min (count_body (body_of suite.now)) (2 ^ 64 - 1) }
{
    match suite {
        Suite::Line(statement) => count_of_stmt(statement.get()),
        Suite::Indented(statements) => count_of_stmts(statements.as_slice()).saturating_add(3),
    }
}

#[cycle(statement)]
fn count_of_stmts(body: &[Stmt]) -> usize
    ensures { result ≡ min (count_statements (statements (map statement_of body.now))) (2 ^ 64 - 1) }
{
    let mut sum: usize = 0;
    for statement in body {
        sum = sum.saturating_add(count_of_stmt(statement));
    }
    sum
}

#[cycle(statement)]
fn count_of_arms(arms: &[Arm]) -> usize
    ensures { result ≡ min (count_tail (tail (map arm_of arms.now) nothing)) (2 ^ 64 - 1) }
{
    let mut sum: usize = 0;
    for arm in arms {
        sum = sum
            .saturating_add(count_of_expr(&arm.test))
            .saturating_add(count_of_suite(&arm.suite))
            .saturating_add(2);
    }
    sum
}

#[cycle(statement)]
fn count_of_otherwise(otherwise: &Otherwise) -> usize
    ensures { result ≡ min (count_tail (otherwise_of otherwise.now)) (2 ^ 64 - 1) }
{
    match otherwise {
        Otherwise::Absent => 0,
        Otherwise::Present(suite) => count_of_suite(suite).saturating_add(2),
    }
}

#[cycle(expression)]
fn count_of_expr(e: &Expr) -> usize
    ensures { result ≡ min (count (tree_of e.now)) (2 ^ 64 - 1) }
{
    match e {
        Expr::Nil { .. } => 1,
        Expr::Truth { .. } => 1,
        Expr::Int { .. } => 1,
        Expr::Text { .. } => 1,
        Expr::Name { .. } => 1,
        Expr::Paren { inner, .. } => count_of_expr(inner.get()).saturating_add(2),
        Expr::Tuple { items, comma, .. } | Expr::List { items, comma, .. } => {
            count_of_items(items.as_slice(), *comma).saturating_add(2)
        }
        Expr::BareTuple { items, comma, .. } => count_of_items(items.as_slice(), *comma),
        Expr::Dict { pairs, comma, .. } => {
            count_of_dict(pairs.as_slice(), *comma).saturating_add(2)
        }
        Expr::Comprehension {
            element,
            target,
            iterable,
            condition,
            ..
        } => count_of_expr(element.get())
            .saturating_add(count_of_target(target))
            .saturating_add(count_of_expr(iterable.get()))
            .saturating_add(count_of_condition(condition))
            .saturating_add(4),
        Expr::Call { args, comma, .. } => {
            count_of_items(args.as_slice(), *comma).saturating_add(3)
        }
        Expr::Method {
            receiver,
            args,
            comma,
            ..
        } => count_of_expr(receiver.get())
            .saturating_add(count_of_items(args.as_slice(), *comma))
            .saturating_add(4),
        Expr::Index { base, at, .. } => count_of_expr(base.get())
            .saturating_add(count_of_expr(at.get()))
            .saturating_add(2),
        Expr::Slice { base, from, to, .. } => count_of_expr(base.get())
            .saturating_add(count_of_maybe(from))
            .saturating_add(count_of_maybe(to))
            .saturating_add(3),
        _ => count_of_operation(e),
    }
}

// Of an expression with an operator.
#[cycle(expression)]
fn count_of_operation(e: &Expr) -> usize
    requires { IsTrue (is_operation (tree_of e.now)) }
    ensures { result ≡ min (count (tree_of e.now)) (2 ^ 64 - 1) }
{
    match e {
        Expr::Unary { operand, .. } | Expr::Not { operand, .. } => {
            count_of_expr(operand.get()).saturating_add(1)
        }
        Expr::Binary { left, right, .. } => count_of_expr(left.get())
            .saturating_add(count_of_expr(right.get()))
            .saturating_add(1),
        Expr::Compare { first, others, .. } => {
            count_of_expr(first.get()).saturating_add(count_of_operands(others.as_slice()))
        }
        Expr::And { first, others, .. } | Expr::Or { first, others, .. } => {
            count_of_expr(first.get()).saturating_add(count_of_others(others.as_slice()))
        }
        Expr::Conditional {
            then,
            test,
            other,
            ..
        } => count_of_expr(then.get())
            .saturating_add(count_of_expr(test.get()))
            .saturating_add(count_of_expr(other.get()))
            .saturating_add(2),
        _ => 1,
    }
}

// Of items with the commas between them.
#[cycle(expression)]
fn count_of_items(items: &[Expr], comma: bool) -> usize
    ensures { result ≡ min (count_each (trees (map tree_of items.now)) + count_commas (size (trees (map tree_of items.now))) comma) (2 ^ 64 - 1) }
{
    count_of_exprs(items).saturating_add(count_of_commas(size_of_exprs(items), comma))
}

// Of operands behind the first, each with its word.
#[cycle(expression)]
fn count_of_others(items: &[Expr]) -> usize
    ensures { result ≡ min (count_each (trees (map tree_of items.now)) + size (trees (map tree_of items.now))) (2 ^ 64 - 1) }
{
    count_of_exprs(items).saturating_add(size_of_exprs(items))
}

#[cycle(expression)]
fn count_of_exprs(items: &[Expr]) -> usize
    ensures { result ≡ min (count_each (trees (map tree_of items.now))) (2 ^ 64 - 1) }
{
    let mut sum: usize = 0;
    for item in items {
        sum = sum.saturating_add(count_of_expr(item));
    }
    sum
}

#[tactic(auto, using(crate::proofs::Sizes::size_exprs))]
fn size_of_exprs(items: &[Expr]) -> usize
    ensures { result ≡ size (trees (map tree_of items.now)) }
{
    items.len()
}

// Of pairs with their colons and the commas between them.
#[cycle(expression)]
fn count_of_dict(pairs: &[Pair], comma: bool) -> usize
    ensures { result ≡ min (count_pairs (pair_trees (map pair_of pairs.now)) + count_commas (pairs_size (pair_trees (map pair_of pairs.now))) comma) (2 ^ 64 - 1) }
{
    count_of_pairs(pairs).saturating_add(count_of_commas(size_of_pairs(pairs), comma))
}

#[cycle(expression)]
fn count_of_pairs(pairs: &[Pair]) -> usize
    ensures { result ≡ min (count_pairs (pair_trees (map pair_of pairs.now))) (2 ^ 64 - 1) }
{
    let mut sum: usize = 0;
    for pair in pairs {
        sum = sum
            .saturating_add(count_of_expr(&pair.key))
            .saturating_add(count_of_expr(&pair.value))
            .saturating_add(1);
    }
    sum
}

#[tactic(auto, using(crate::proofs::Sizes::size_pairs))]
fn size_of_pairs(pairs: &[Pair]) -> usize
    ensures { result ≡ pairs_size (pair_trees (map pair_of pairs.now)) }
{
    pairs.len()
}

#[cycle(expression)]
fn count_of_operands(others: &[Operand]) -> usize
    ensures { result ≡ min (count_operands (operands (map operand_of others.now))) (2 ^ 64 - 1) }
{
    let mut sum: usize = 0;
    for operand in others {
        sum = sum
            .saturating_add(count_of_op(operand.op))
            .saturating_add(count_of_expr(&operand.right));
    }
    sum
}

fn count_of_op(op: CompareOp) -> usize
    ensures { result ≡ count_op op }
{
    match op {
        CompareOp::NotIn => 2,
        CompareOp::IsNot => 2,
        _ => 1,
    }
}

#[cycle(expression)]
fn count_of_maybe(e: &Maybe) -> usize
    ensures { result ≡ min (count_maybe (maybe_of e.now)) (2 ^ 64 - 1) }
{
    match e {
        Maybe::Absent => 0,
        Maybe::Present(inner) => count_of_expr(inner.get()),
    }
}

#[cycle(expression)]
fn count_of_condition(e: &Maybe) -> usize
    ensures { result ≡ min (count_condition (maybe_of e.now)) (2 ^ 64 - 1) }
{
    match e {
        Maybe::Absent => 0,
        Maybe::Present(inner) => count_of_expr(inner.get()).saturating_add(1),
    }
}

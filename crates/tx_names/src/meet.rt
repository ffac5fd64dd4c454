// The names of a function: those that its statements assign to, and the variables of its comprehensions.
ghost use Rattle.std.specs.Prelude.{◌≡◌, OnOk, map};
ghost use Rattle.tx_tree.specs.Tree.{tree_of, trees, pair_of, pair_trees, operand_of, operands, maybe_of, statement_of, statements, body_of, arm_of, tail, nothing, otherwise_of};
ghost use Rattle.tx_name_set.specs.NameSet.{add_all};
ghost use Rattle.tx_names.specs.Scope.{names_of, assigned, assigned_body, assigned_each, assigned_tail, with_inner, with_inner_each, with_inner_pairs, with_inner_operands, with_inner_maybe, with_inner_of, with_inner_body, with_inner_all, with_inner_tail};

use tx_name_set::Names;
use tx_text::NoMemory;
use tx_tree::{Arm, Expr, Maybe, Operand, Otherwise, Pair, Stmt, Suite, Target};

// ---- what is assigned to

/// Adds the names of a target.
pub(crate) fn add_target<'a>(target: &'a Target, names: &mut Names<'a>) -> Result<(), NoMemory>
    ensures { OnOk result (names.new ≡ add_all names.old (names_of target.now)) }
{
    match target {
        Target::Name(word) => {
            names.add(&word.text)?;
            Ok(())
        }
        Target::Names { names: words, .. } => names.add_words(words.as_slice()),
        Target::Bracketed { names: words, .. } => names.add_words(words.as_slice()),
    }
}

#[tactic(auto, using(crate::proofs::Meeting::meets))]
#[cycle(assigned)]
fn add_assigned<'a>(statement: &'a Stmt, names: &mut Names<'a>) -> Result<(), NoMemory>
    ensures { OnOk result (names.new ≡ add_all names.old (assigned (statement_of statement.now))) }
{
    match statement {
        Stmt::Assign { target, .. } => add_target(target, names),
        Stmt::Augment { name, .. } => {
            names.add(name)?;
            Ok(())
        }
        Stmt::If {
            suite,
            arms,
            otherwise,
            ..
        } => {
            add_assigned_in(suite, names)?;
            add_assigned_in_arms(arms.as_slice(), names)?;
            add_assigned_otherwise(otherwise, names)
        }
        Stmt::For { target, suite, .. } => {
            add_target(target, names)?;
            add_assigned_in(suite, names)
        }
        _ => Ok(()),
    }
}

/// Adds the names that the statements of a suite assign to.
#[tactic(auto, using(crate::proofs::Meeting::meets))]
#[cycle(assigned)]
pub(crate) fn add_assigned_in<'a>(suite: &'a Suite, names: &mut Names<'a>) -> Result<(), NoMemory>
    ensures { OnOk result (names.new ≡ add_all names.old (assigned_body (body_of suite.now))) }
{
    match suite {
        Suite::Line(statement) => add_assigned(statement.get(), names),
        Suite::Indented(statements) => add_assigned_each(statements.as_slice(), names),
    }
}

#[tactic(auto, using(crate::proofs::Meeting::meets))]
#[cycle(assigned)]
fn add_assigned_each<'a>(body: &'a [Stmt], names: &mut Names<'a>) -> Result<(), NoMemory>
    ensures { OnOk result (names.new ≡ add_all names.old (assigned_each (statements (map statement_of body.now)))) }
{
    for statement in body {
        add_assigned(statement, names)?;
    }
    Ok(())
}

#[tactic(auto, using(crate::proofs::Meeting::meets))]
#[cycle(assigned)]
fn add_assigned_in_arms<'a>(arms: &'a [Arm], names: &mut Names<'a>) -> Result<(), NoMemory>
    ensures { OnOk result (names.new ≡ add_all names.old (assigned_tail (tail (map arm_of arms.now) nothing))) }
{
    for arm in arms {
        add_assigned_in(&arm.suite, names)?;
    }
    Ok(())
}

#[tactic(auto, using(crate::proofs::Meeting::meets))]
#[cycle(assigned)]
fn add_assigned_otherwise<'a>(
    otherwise: &'a Otherwise,
    names: &mut Names<'a>,
) -> Result<(), NoMemory>
    ensures { OnOk result (names.new ≡ add_all names.old (assigned_tail (otherwise_of otherwise.now))) }
{
    match otherwise {
        Otherwise::Absent => Ok(()),
        Otherwise::Present(suite) => add_assigned_in(suite, names),
    }
}

// ---- the variables of comprehensions

/// Adds the variables of the comprehensions in an expression.
#[cycle(inner)]
pub(crate) fn add_inner<'a>(e: &'a Expr, names: &mut Names<'a>) -> Result<(), NoMemory>
    ensures { OnOk result (names.new ≡ with_inner (tree_of e.now) names.old) }
{
    match e {
        Expr::Paren { inner, .. } => add_inner(inner.get(), names),
        Expr::Tuple { items, .. } => add_inner_each(items.as_slice(), names),
        Expr::BareTuple { items, .. } => add_inner_each(items.as_slice(), names),
        Expr::List { items, .. } => add_inner_each(items.as_slice(), names),
        Expr::Dict { pairs, .. } => add_inner_pairs(pairs.as_slice(), names),
        Expr::Comprehension {
            element,
            target,
            iterable,
            condition,
            ..
        } => {
            add_inner(element.get(), names)?;
            add_target(target, names)?;
            add_inner(iterable.get(), names)?;
            add_inner_maybe(condition, names)
        }
        Expr::Call { args, .. } => add_inner_each(args.as_slice(), names),
        Expr::Method { receiver, args, .. } => {
            add_inner(receiver.get(), names)?;
            add_inner_each(args.as_slice(), names)
        }
        Expr::Index { base, at, .. } => {
            add_inner(base.get(), names)?;
            add_inner(at.get(), names)
        }
        Expr::Slice { base, from, to, .. } => {
            add_inner(base.get(), names)?;
            add_inner_maybe(from, names)?;
            add_inner_maybe(to, names)
        }
        Expr::Unary { operand, .. } => add_inner(operand.get(), names),
        Expr::Binary { left, right, .. } => {
            add_inner(left.get(), names)?;
            add_inner(right.get(), names)
        }
        Expr::Compare { first, others, .. } => {
            add_inner(first.get(), names)?;
            add_inner_operands(others.as_slice(), names)
        }
        Expr::Not { operand, .. } => add_inner(operand.get(), names),
        Expr::And { first, others, .. } => {
            add_inner(first.get(), names)?;
            add_inner_each(others.as_slice(), names)
        }
        Expr::Or { first, others, .. } => {
            add_inner(first.get(), names)?;
            add_inner_each(others.as_slice(), names)
        }
        Expr::Conditional {
            then,
            test,
            other,
            ..
        } => {
            add_inner(then.get(), names)?;
            add_inner(test.get(), names)?;
            add_inner(other.get(), names)
        }
        _ => Ok(()),
    }
}

#[cycle(inner)]
fn add_inner_each<'a>(items: &'a [Expr], names: &mut Names<'a>) -> Result<(), NoMemory>
    ensures { OnOk result (names.new ≡ with_inner_each (trees (map tree_of items.now)) names.old) }
{
    for item in items {
        add_inner(item, names)?;
    }
    Ok(())
}

#[cycle(inner)]
fn add_inner_pairs<'a>(pairs: &'a [Pair], names: &mut Names<'a>) -> Result<(), NoMemory>
    ensures { OnOk result (names.new ≡ with_inner_pairs (pair_trees (map pair_of pairs.now)) names.old) }
{
    for pair in pairs {
        add_inner(&pair.key, names)?;
        add_inner(&pair.value, names)?;
    }
    Ok(())
}

#[cycle(inner)]
fn add_inner_operands<'a>(others: &'a [Operand], names: &mut Names<'a>) -> Result<(), NoMemory>
    ensures { OnOk result (names.new ≡ with_inner_operands (operands (map operand_of others.now)) names.old) }
{
    for operand in others {
        add_inner(&operand.right, names)?;
    }
    Ok(())
}

#[cycle(inner)]
fn add_inner_maybe<'a>(e: &'a Maybe, names: &mut Names<'a>) -> Result<(), NoMemory>
    ensures { OnOk result (names.new ≡ with_inner_maybe (maybe_of e.now) names.old) }
{
    match e {
        Maybe::Absent => Ok(()),
        Maybe::Present(inner) => add_inner(inner.get(), names),
    }
}

#[tactic(auto, using(crate::proofs::Meeting::meets))]
#[cycle(inner_of)]
fn add_inner_of<'a>(statement: &'a Stmt, names: &mut Names<'a>) -> Result<(), NoMemory>
    ensures { OnOk result (names.new ≡ with_inner_of (statement_of statement.now) names.old) }
{
    match statement {
        Stmt::Return { value, .. } => add_inner_maybe(value, names),
        Stmt::Assign { value, .. } => add_inner(value, names),
        Stmt::Augment { value, .. } => add_inner(value, names),
        Stmt::Express { value, .. } => add_inner(value, names),
        Stmt::If {
            test,
            suite,
            arms,
            otherwise,
            ..
        } => {
            add_inner(test, names)?;
            add_inner_in(suite, names)?;
            add_inner_in_arms(arms.as_slice(), names)?;
            add_inner_otherwise(otherwise, names)
        }
        Stmt::For {
            iterable,
            suite,
            ..
        } => {
            add_inner(iterable, names)?;
            add_inner_in(suite, names)
        }
        _ => Ok(()),
    }
}

/// Adds the variables of the comprehensions in a suite.
#[tactic(auto, using(crate::proofs::Meeting::meets))]
#[cycle(inner_of)]
pub(crate) fn add_inner_in<'a>(suite: &'a Suite, names: &mut Names<'a>) -> Result<(), NoMemory>
    ensures { OnOk result (names.new ≡ with_inner_body (body_of suite.now) names.old) }
{
    match suite {
        Suite::Line(statement) => add_inner_of(statement.get(), names),
        Suite::Indented(statements) => add_inner_all(statements.as_slice(), names),
    }
}

#[tactic(auto, using(crate::proofs::Meeting::meets))]
#[cycle(inner_of)]
fn add_inner_all<'a>(body: &'a [Stmt], names: &mut Names<'a>) -> Result<(), NoMemory>
    ensures { OnOk result (names.new ≡ with_inner_all (statements (map statement_of body.now)) names.old) }
{
    for statement in body {
        add_inner_of(statement, names)?;
    }
    Ok(())
}

#[tactic(auto, using(crate::proofs::Meeting::meets))]
#[cycle(inner_of)]
fn add_inner_in_arms<'a>(arms: &'a [Arm], names: &mut Names<'a>) -> Result<(), NoMemory>
    ensures { OnOk result (names.new ≡ with_inner_tail (tail (map arm_of arms.now) nothing) names.old) }
{
    for arm in arms {
        add_inner(&arm.test, names)?;
        add_inner_in(&arm.suite, names)?;
    }
    Ok(())
}

#[tactic(auto, using(crate::proofs::Meeting::meets))]
#[cycle(inner_of)]
fn add_inner_otherwise<'a>(otherwise: &'a Otherwise, names: &mut Names<'a>) -> Result<(), NoMemory>
    ensures { OnOk result (names.new ≡ with_inner_tail (otherwise_of otherwise.now) names.old) }
{
    match otherwise {
        Otherwise::Absent => Ok(()),
        Otherwise::Present(suite) => add_inner_in(suite, names),
    }
}

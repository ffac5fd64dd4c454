// The columns whose cells a function reads.
ghost use Rattle.std.specs.Prelude.{◌≡◌, ◌++◌, OnOk, map};
ghost use Rattle.tx_names.specs.View.{expr_of, exprs, pair_of, pairs, operand_of, comparisons, maybe_of, iterable_of, statement_of, statements, arm_of, arms, body_of};
ghost use Rattle.tx_names.specs.Parts.{columns_in, columns_in_each, columns_in_pairs, columns_in_comparisons, columns_in_maybe, columns_in_iterable, columns_of_statement, columns_of_statements, columns_of_arms, columns_of_body};

use crate::copying::copy_text;
use crate::{
    BoundArm, BoundBody, BoundExpr, BoundMaybe, BoundOperand, BoundPair, BoundStmt, Iterable,
};
use tx_text::{NoMemory, Texts};

#[tactic(auto, using(crate::proofs::Appends::appends))]
#[cycle(columns)]
fn add_columns(e: &BoundExpr, columns: &mut Texts) -> Result<(), NoMemory>
    ensures { OnOk result (columns.new ≡ columns.old ++ columns_in (expr_of e.now)) }
{
    match e {
        BoundExpr::Cell(column) => columns.push(copy_text(column)?),
        BoundExpr::Paren(inner) => add_columns(inner.get(), columns),
        BoundExpr::Tuple(items) => add_columns_each(items.as_slice(), columns),
        BoundExpr::List(items) => add_columns_each(items.as_slice(), columns),
        BoundExpr::Dict(items) => add_columns_pairs(items.as_slice(), columns),
        BoundExpr::Comprehension {
            element,
            iterable,
            condition,
            ..
        } => {
            add_columns(element.get(), columns)?;
            add_columns_iterable(iterable, columns)?;
            add_columns_maybe(condition, columns)
        }
        BoundExpr::Call(_, args) => add_columns_each(args.as_slice(), columns),
        BoundExpr::Builtin(_, args) => add_columns_each(args.as_slice(), columns),
        BoundExpr::Method(receiver, _, args) => {
            add_columns(receiver.get(), columns)?;
            add_columns_each(args.as_slice(), columns)
        }
        BoundExpr::Index(base, at) => {
            add_columns(base.get(), columns)?;
            add_columns(at.get(), columns)
        }
        BoundExpr::Slice { base, from, to } => {
            add_columns(base.get(), columns)?;
            add_columns_maybe(from, columns)?;
            add_columns_maybe(to, columns)
        }
        BoundExpr::Unary(_, operand) => add_columns(operand.get(), columns),
        BoundExpr::Binary(left, _, right) => {
            add_columns(left.get(), columns)?;
            add_columns(right.get(), columns)
        }
        BoundExpr::Compare(first, others) => {
            add_columns(first.get(), columns)?;
            add_columns_operands(others.as_slice(), columns)
        }
        BoundExpr::Not(operand) => add_columns(operand.get(), columns),
        BoundExpr::And(first, others) => {
            add_columns(first.get(), columns)?;
            add_columns_each(others.as_slice(), columns)
        }
        BoundExpr::Or(first, others) => {
            add_columns(first.get(), columns)?;
            add_columns_each(others.as_slice(), columns)
        }
        BoundExpr::Conditional { then, test, other } => {
            add_columns(then.get(), columns)?;
            add_columns(test.get(), columns)?;
            add_columns(other.get(), columns)
        }
        _ => Ok(()),
    }
}

#[tactic(auto, using(crate::proofs::Appends::appends))]
#[cycle(columns)]
fn add_columns_each(items: &[BoundExpr], columns: &mut Texts) -> Result<(), NoMemory>
    ensures { OnOk result (columns.new ≡ columns.old ++ columns_in_each (exprs (map expr_of items.now))) }
{
    for item in items {
        add_columns(item, columns)?;
    }
    Ok(())
}

#[tactic(auto, using(crate::proofs::Appends::appends))]
#[cycle(columns)]
fn add_columns_pairs(items: &[BoundPair], columns: &mut Texts) -> Result<(), NoMemory>
    ensures { OnOk result (columns.new ≡ columns.old ++ columns_in_pairs (pairs (map pair_of items.now))) }
{
    for item in items {
        add_columns(&item.key, columns)?;
        add_columns(&item.value, columns)?;
    }
    Ok(())
}

#[tactic(auto, using(crate::proofs::Appends::appends))]
#[cycle(columns)]
fn add_columns_operands(items: &[BoundOperand], columns: &mut Texts) -> Result<(), NoMemory>
    ensures { OnOk result (columns.new ≡ columns.old ++ columns_in_comparisons (comparisons (map operand_of items.now))) }
{
    for item in items {
        add_columns(&item.right, columns)?;
    }
    Ok(())
}

#[tactic(auto, using(crate::proofs::Appends::appends))]
#[cycle(columns)]
fn add_columns_maybe(e: &BoundMaybe, columns: &mut Texts) -> Result<(), NoMemory>
    ensures { OnOk result (columns.new ≡ columns.old ++ columns_in_maybe (maybe_of e.now)) }
{
    match e {
        BoundMaybe::Absent => Ok(()),
        BoundMaybe::Present(inner) => add_columns(inner.get(), columns),
    }
}

#[tactic(auto, using(crate::proofs::Appends::appends))]
#[cycle(columns)]
fn add_columns_iterable(iterable: &Iterable, columns: &mut Texts) -> Result<(), NoMemory>
    ensures { OnOk result (columns.new ≡ columns.old ++ columns_in_iterable (iterable_of iterable.now)) }
{
    match iterable {
        Iterable::Value(inner) => add_columns(inner.get(), columns),
        Iterable::Walk(_, args) => add_columns_each(args.as_slice(), columns),
        Iterable::View(receiver, _) => add_columns(receiver.get(), columns),
    }
}

#[tactic(auto, using(crate::proofs::Appends::appends))]
#[cycle(columns_of)]
fn add_columns_of(s: &BoundStmt, columns: &mut Texts) -> Result<(), NoMemory>
    ensures { OnOk result (columns.new ≡ columns.old ++ columns_of_statement (statement_of s.now)) }
{
    match s {
        BoundStmt::Return(value) => add_columns_maybe(value, columns),
        BoundStmt::Assign(_, value) => add_columns(value, columns),
        BoundStmt::Augment(_, _, value) => add_columns(value, columns),
        BoundStmt::Express(value) => add_columns(value, columns),
        BoundStmt::If(choices, other) => {
            add_columns_of_arms(choices.as_slice(), columns)?;
            add_columns_of_all(other.as_slice(), columns)
        }
        BoundStmt::For { iterable, body, .. } => {
            add_columns_iterable(iterable, columns)?;
            add_columns_of_all(body.as_slice(), columns)
        }
        _ => Ok(()),
    }
}

#[tactic(auto, using(crate::proofs::Appends::appends))]
#[cycle(columns_of)]
fn add_columns_of_all(body: &[BoundStmt], columns: &mut Texts) -> Result<(), NoMemory>
    ensures { OnOk result (columns.new ≡ columns.old ++ columns_of_statements (statements (map statement_of body.now))) }
{
    for statement in body {
        add_columns_of(statement, columns)?;
    }
    Ok(())
}

#[tactic(auto, using(crate::proofs::Appends::appends))]
#[cycle(columns_of)]
fn add_columns_of_arms(choices: &[BoundArm], columns: &mut Texts) -> Result<(), NoMemory>
    ensures { OnOk result (columns.new ≡ columns.old ++ columns_of_arms (arms (map arm_of choices.now))) }
{
    for arm in choices {
        add_columns(&arm.test, columns)?;
        add_columns_of_all(arm.body.as_slice(), columns)?;
    }
    Ok(())
}

/// Adds the columns whose cells a body reads, in the order of their tokens.
pub(crate) fn add_columns_of_body(body: &BoundBody, columns: &mut Texts) -> Result<(), NoMemory>
    ensures { OnOk result (columns.new ≡ columns.old ++ columns_of_body (body_of body.now)) }
{
    match body {
        BoundBody::Gives(e) => add_columns(e, columns),
        BoundBody::Does(statements) => add_columns_of_all(statements.as_slice(), columns),
    }
}

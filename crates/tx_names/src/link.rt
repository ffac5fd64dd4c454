// Expressions with slots for names.
ghost use Rattle.std.specs.Prelude.{◌≡◌, Ok, Err, IfOk, map};
ghost use Rattle.tx_tree.specs.Tree.{tree_of, trees, pair_of as pair_tree, pair_trees, operand_of as operand_tree, operands, maybe_of as maybe_tree};
ghost use Rattle.tx_names.specs.declared.fault.Fault as told;
ghost use Rattle.tx_names.specs.Linked as l;
ghost use Rattle.tx_names.specs.View.{expr_of, exprs, pair_of, pairs, operand_of, comparisons, maybe_of, iterable_of};
ghost use Rattle.tx_names.specs.Calls.Around.{linked, linked_each, linked_pairs, linked_operands, linked_maybe, linked_iterable, callee_of};

use crate::around::{Around, Inner, within};
use crate::called::{
    Callee, called, cell_in, counted, link_target, method_of, number_of, read, walk_in,
};
use crate::copying::copy_text;
use crate::fault::Stop;
use crate::words::view_at;
use crate::{
    BoundExpr, BoundExprs, BoundMaybe, BoundOperand, BoundOperands, BoundPair, BoundPairs, Iterable,
};
use sqlite_items::Boxed;
use std::alloc::Global;
use std::rc::Rc;
use tx_text::NoMemory;
use tx_tree::{Expr, Maybe, Operand, Pair};

fn boxed(alloc: Global, e: BoundExpr) -> Result<Boxed<BoundExpr>, NoMemory>
    ensures { IfOk result (λ b. b ≡ e) }
{
    Ok(Boxed::new(alloc, e)?)
}

// A call of a function with these arguments.
fn call_of(callee: Callee, args: BoundExprs) -> BoundExpr
    ensures { expr_of result ≡ l.call_of (callee_of callee) (exprs (map expr_of args)) }
{
    match callee {
        Callee::Function(b) => BoundExpr::Builtin(b, args),
        Callee::Routine(routine) => BoundExpr::Call(routine, args),
    }
}

/// The expression with slots, or the first fault in it.
#[cycle(link)]
pub(crate) fn link<'t>(
    e: &'t Expr,
    alloc: Global,
    around: &Around<'_, '_>,
    inner: &Rc<Inner<'t>>,
) -> Result<BoundExpr, Stop>
    ensures ok { IfOk result (λ c. linked around.now inner.now.value (tree_of e.now) ≡ Ok (expr_of c)) }
    ensures fault { (f : told.Fault) → result ≡ Err (Stop.Fault f) → linked around.now inner.now.value (tree_of e.now) ≡ Err f }
{
    match e {
        Expr::Nil { .. } => Ok(BoundExpr::Nil),
        Expr::Truth { value, .. } => Ok(BoundExpr::Truth(*value)),
        Expr::Int { value, .. } => Ok(BoundExpr::Int(*value)),
        Expr::Text { value, .. } => Ok(BoundExpr::Text(copy_text(value)?)),
        Expr::Name { line, name } => read(around, inner, *line, name),
        Expr::Paren { inner: bare, .. } => {
            let x = link(bare.get(), alloc, around, inner)?;
            Ok(BoundExpr::Paren(boxed(alloc, x)?))
        }
        Expr::Tuple { items, .. } => {
            let xs = link_each(items.as_slice(), alloc, around, inner)?;
            Ok(BoundExpr::Tuple(xs))
        }
        Expr::BareTuple { items, .. } => {
            let xs = link_each(items.as_slice(), alloc, around, inner)?;
            Ok(BoundExpr::Tuple(xs))
        }
        Expr::List { items, .. } => {
            let xs = link_each(items.as_slice(), alloc, around, inner)?;
            Ok(BoundExpr::List(xs))
        }
        Expr::Dict { pairs, .. } => {
            let xs = link_pairs(pairs.as_slice(), alloc, around, inner)?;
            Ok(BoundExpr::Dict(xs))
        }
        Expr::Comprehension {
            element,
            target,
            iterable,
            condition,
            ..
        } => {
            let own = within(alloc, inner, target)?;
            let item = link(element.get(), alloc, around, &own)?;
            let place = link_target(alloc, around, inner, target)?;
            let items = link_iterable(iterable.get(), alloc, around, inner)?;
            let wanted = link_maybe(condition, alloc, around, &own)?;
            Ok(BoundExpr::Comprehension {
                element: boxed(alloc, item)?,
                target: place,
                iterable: items,
                condition: wanted,
            })
        }
        Expr::Call {
            line,
            name,
            args,
            ..
        } => {
            let callee = called(around, inner, *line, name, number_of(args))?;
            let xs = link_each(args.as_slice(), alloc, around, inner)?;
            Ok(call_of(callee, xs))
        }
        Expr::Method {
            receiver,
            word,
            args,
            ..
        } => {
            let x = link(receiver.get(), alloc, around, inner)?;
            let m = method_of(word, number_of(args))?;
            let xs = link_each(args.as_slice(), alloc, around, inner)?;
            Ok(BoundExpr::Method(boxed(alloc, x)?, m, xs))
        }
        Expr::Index { base, at, .. } => match cell_in(around, base.get(), at.get()) {
            Some(column) => Ok(BoundExpr::Cell(copy_text(column)?)),
            None => {
                let x = link(base.get(), alloc, around, inner)?;
                let y = link(at.get(), alloc, around, inner)?;
                Ok(BoundExpr::Index(boxed(alloc, x)?, boxed(alloc, y)?))
            }
        },
        Expr::Slice { base, from, to, .. } => {
            let x = link(base.get(), alloc, around, inner)?;
            let y = link_maybe(from, alloc, around, inner)?;
            let z = link_maybe(to, alloc, around, inner)?;
            Ok(BoundExpr::Slice {
                base: boxed(alloc, x)?,
                from: y,
                to: z,
            })
        }
        Expr::Unary { op, operand, .. } => {
            let x = link(operand.get(), alloc, around, inner)?;
            Ok(BoundExpr::Unary(*op, boxed(alloc, x)?))
        }
        Expr::Binary {
            left,
            op,
            right,
            ..
        } => {
            let x = link(left.get(), alloc, around, inner)?;
            let y = link(right.get(), alloc, around, inner)?;
            Ok(BoundExpr::Binary(boxed(alloc, x)?, *op, boxed(alloc, y)?))
        }
        Expr::Compare { first, others, .. } => {
            let x = link(first.get(), alloc, around, inner)?;
            let ys = link_operands(others.as_slice(), alloc, around, inner)?;
            Ok(BoundExpr::Compare(boxed(alloc, x)?, ys))
        }
        Expr::Not { operand, .. } => {
            let x = link(operand.get(), alloc, around, inner)?;
            Ok(BoundExpr::Not(boxed(alloc, x)?))
        }
        Expr::And { first, others, .. } => {
            let x = link(first.get(), alloc, around, inner)?;
            let xs = link_each(others.as_slice(), alloc, around, inner)?;
            Ok(BoundExpr::And(boxed(alloc, x)?, xs))
        }
        Expr::Or { first, others, .. } => {
            let x = link(first.get(), alloc, around, inner)?;
            let xs = link_each(others.as_slice(), alloc, around, inner)?;
            Ok(BoundExpr::Or(boxed(alloc, x)?, xs))
        }
        Expr::Conditional {
            then,
            test,
            other,
            ..
        } => {
            let x = link(then.get(), alloc, around, inner)?;
            let y = link(test.get(), alloc, around, inner)?;
            let z = link(other.get(), alloc, around, inner)?;
            Ok(BoundExpr::Conditional {
                then: boxed(alloc, x)?,
                test: boxed(alloc, y)?,
                other: boxed(alloc, z)?,
            })
        }
    }
}

#[tactic(auto, using(crate::proofs::Fronts::fronts))]
#[cycle(link)]
fn link_each<'t>(
    items: &'t [Expr],
    alloc: Global,
    around: &Around<'_, '_>,
    inner: &Rc<Inner<'t>>,
) -> Result<BoundExprs, Stop>
    ensures ok { IfOk result (λ c. linked_each around.now inner.now.value (trees (map tree_of items.now)) ≡ Ok (exprs (map expr_of c))) }
    ensures fault { (f : told.Fault) → result ≡ Err (Stop.Fault f) → linked_each around.now inner.now.value (trees (map tree_of items.now)) ≡ Err f }
{
    let mut out = BoundExprs::new(alloc);
    for item in items {
        let x = link(item, alloc, around, inner)?;
        out.push(x)?;
    }
    Ok(out)
}

#[tactic(auto, using(crate::proofs::Fronts::fronts))]
#[cycle(link)]
fn link_pairs<'t>(
    items: &'t [Pair],
    alloc: Global,
    around: &Around<'_, '_>,
    inner: &Rc<Inner<'t>>,
) -> Result<BoundPairs, Stop>
    ensures ok { IfOk result (λ c. linked_pairs around.now inner.now.value (pair_trees (map pair_tree items.now)) ≡ Ok (pairs (map pair_of c))) }
    ensures fault { (f : told.Fault) → result ≡ Err (Stop.Fault f) → linked_pairs around.now inner.now.value (pair_trees (map pair_tree items.now)) ≡ Err f }
{
    let mut out = BoundPairs::new(alloc);
    for pair in items {
        let key = link(&pair.key, alloc, around, inner)?;
        let value = link(&pair.value, alloc, around, inner)?;
        out.push(BoundPair { key, value })?;
    }
    Ok(out)
}

#[tactic(auto, using(crate::proofs::Fronts::fronts))]
#[cycle(link)]
fn link_operands<'t>(
    others: &'t [Operand],
    alloc: Global,
    around: &Around<'_, '_>,
    inner: &Rc<Inner<'t>>,
) -> Result<BoundOperands, Stop>
    ensures ok { IfOk result (λ c. linked_operands around.now inner.now.value (operands (map operand_tree others.now)) ≡ Ok (comparisons (map operand_of c))) }
    ensures fault { (f : told.Fault) → result ≡ Err (Stop.Fault f) → linked_operands around.now inner.now.value (operands (map operand_tree others.now)) ≡ Err f }
{
    let mut out = BoundOperands::new(alloc);
    for operand in others {
        let right = link(&operand.right, alloc, around, inner)?;
        out.push(BoundOperand {
            op: operand.op,
            right,
        })?;
    }
    Ok(out)
}

#[cycle(link)]
pub(crate) fn link_maybe<'t>(
    e: &'t Maybe,
    alloc: Global,
    around: &Around<'_, '_>,
    inner: &Rc<Inner<'t>>,
) -> Result<BoundMaybe, Stop>
    ensures ok { IfOk result (λ c. linked_maybe around.now inner.now.value (maybe_tree e.now) ≡ Ok (maybe_of c)) }
    ensures fault { (f : told.Fault) → result ≡ Err (Stop.Fault f) → linked_maybe around.now inner.now.value (maybe_tree e.now) ≡ Err f }
{
    match e {
        Maybe::Absent => Ok(BoundMaybe::Absent),
        Maybe::Present(bare) => {
            let x = link(bare.get(), alloc, around, inner)?;
            Ok(BoundMaybe::Present(boxed(alloc, x)?))
        }
    }
}

/// The iterable of a `for` or of a comprehension: a walk or a view, or the value of the expression.
#[cycle(link)]
pub(crate) fn link_iterable<'t>(
    e: &'t Expr,
    alloc: Global,
    around: &Around<'_, '_>,
    inner: &Rc<Inner<'t>>,
) -> Result<Iterable, Stop>
    ensures ok { IfOk result (λ i. linked_iterable around.now inner.now.value (tree_of e.now) ≡ Ok (iterable_of i)) }
    ensures fault { (f : told.Fault) → result ≡ Err (Stop.Fault f) → linked_iterable around.now inner.now.value (tree_of e.now) ≡ Err f }
{
    match e {
        Expr::Call {
            line,
            name,
            args,
            ..
        } => match walk_in(around, inner, name) {
            Some(walk) => {
                let walk = counted(walk, *line, number_of(args))?;
                let xs = link_each(args.as_slice(), alloc, around, inner)?;
                Ok(Iterable::Walk(walk, xs))
            }
            None => link_value(e, alloc, around, inner),
        },
        Expr::Method {
            receiver,
            word,
            args,
            ..
        } => match view_at(&word.text) {
            Some(view) => {
                let x = link(receiver.get(), alloc, around, inner)?;
                let view = counted(view, word.line, number_of(args))?;
                let _none = link_each(args.as_slice(), alloc, around, inner)?;
                Ok(Iterable::View(boxed(alloc, x)?, view))
            }
            None => link_value(e, alloc, around, inner),
        },
        _ => link_value(e, alloc, around, inner),
    }
}

#[cycle(link)]
fn link_value<'t>(
    e: &'t Expr,
    alloc: Global,
    around: &Around<'_, '_>,
    inner: &Rc<Inner<'t>>,
) -> Result<Iterable, Stop>
    ensures ok { IfOk result (λ i. l.as_value (linked around.now inner.now.value (tree_of e.now)) ≡ Ok (iterable_of i)) }
    ensures fault { (f : told.Fault) → result ≡ Err (Stop.Fault f) → l.as_value (linked around.now inner.now.value (tree_of e.now)) ≡ Err f }
{
    let x = link(e, alloc, around, inner)?;
    Ok(Iterable::Value(boxed(alloc, x)?))
}

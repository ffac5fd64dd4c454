// Statements with slots for names.
ghost use Rattle.std.specs.Prelude.{◌≡◌, Ok, Err, IfOk, map};
ghost use Rattle.tx_tree.specs.Tree.{statement_of as statement_tree, statements as statement_trees, body_of as body_tree, arm_of as arm_tree, tail, nothing, otherwise_of};
ghost use Rattle.tx_names.specs.declared.fault.Fault as told;
ghost use Rattle.tx_names.specs.View.{statement_of, statements, arm_of, arms};
ghost use Rattle.tx_names.specs.Calls.Around.{does, does_all, does_body, other_of, arms_behind};

use crate::around::{Around, Inner};
use crate::called::{assigned_slot, link_target};
use crate::fault::Stop;
use crate::link::{link, link_iterable, link_maybe};
use crate::{BoundArm, BoundArms, BoundStmt, BoundStmts};
use std::alloc::Global;
use std::rc::Rc;
use tx_tree::{Arm, Otherwise, Stmt, Suite};

#[tactic(auto, using(crate::proofs::Tails::tails))]
#[cycle(link_body)]
fn link_stmt<'t>(
    s: &'t Stmt,
    alloc: Global,
    around: &Around<'_, '_>,
    inner: &Rc<Inner<'t>>,
) -> Result<BoundStmt, Stop>
    ensures ok { IfOk result (λ c. does around.now inner.now.value (statement_tree s.now) ≡ Ok (statement_of c)) }
    ensures fault { (f : told.Fault) → result ≡ Err (Stop.Fault f) → does around.now inner.now.value (statement_tree s.now) ≡ Err f }
{
    match s {
        Stmt::Pass { .. } => Ok(BoundStmt::Pass),
        Stmt::Break { .. } => Ok(BoundStmt::Break),
        Stmt::Continue { .. } => Ok(BoundStmt::Continue),
        Stmt::Return { value, .. } => {
            let x = link_maybe(value, alloc, around, inner)?;
            Ok(BoundStmt::Return(x))
        }
        Stmt::Assign { target, value, .. } => {
            let place = link_target(alloc, around, inner, target)?;
            let x = link(value, alloc, around, inner)?;
            Ok(BoundStmt::Assign(place, x))
        }
        Stmt::Augment {
            line,
            name,
            op,
            value,
        } => {
            let slot = assigned_slot(around, inner, *line, name)?;
            let x = link(value, alloc, around, inner)?;
            Ok(BoundStmt::Augment(slot, *op, x))
        }
        Stmt::Express { value, .. } => {
            let x = link(value, alloc, around, inner)?;
            Ok(BoundStmt::Express(x))
        }
        Stmt::If {
            test,
            suite,
            arms,
            otherwise,
            ..
        } => {
            let test = link(test, alloc, around, inner)?;
            let body = link_suite(suite, alloc, around, inner)?;
            let arms = link_arms(
                arms.as_slice(),
                alloc,
                around,
                inner,
                BoundArm { test, body },
            )?;
            let other = link_otherwise(otherwise, alloc, around, inner)?;
            Ok(BoundStmt::If(arms, other))
        }
        Stmt::For {
            target,
            iterable,
            suite,
            ..
        } => {
            let place = link_target(alloc, around, inner, target)?;
            let items = link_iterable(iterable, alloc, around, inner)?;
            let body = link_suite(suite, alloc, around, inner)?;
            Ok(BoundStmt::For {
                target: place,
                iterable: items,
                body,
            })
        }
    }
}

/// The statements of a suite with slots, or the first fault in it.
#[cycle(link_body)]
pub(crate) fn link_suite<'t>(
    suite: &'t Suite,
    alloc: Global,
    around: &Around<'_, '_>,
    inner: &Rc<Inner<'t>>,
) -> Result<BoundStmts, Stop>
    ensures ok { IfOk result (λ c. does_body around.now inner.now.value (body_tree suite.now) ≡ Ok (statements (map statement_of c))) }
    ensures fault { (f : told.Fault) → result ≡ Err (Stop.Fault f) → does_body around.now inner.now.value (body_tree suite.now) ≡ Err f }
{
    match suite {
        Suite::Line(statement) => {
            let x = link_stmt(statement.get(), alloc, around, inner)?;
            let mut out = BoundStmts::new(alloc);
            out.push(x)?;
            Ok(out)
        }
        Suite::Indented(body) => link_all(body.as_slice(), alloc, around, inner),
    }
}

#[tactic(auto, using(crate::proofs::Fronts::fronts))]
#[cycle(link_body)]
fn link_all<'t>(
    body: &'t [Stmt],
    alloc: Global,
    around: &Around<'_, '_>,
    inner: &Rc<Inner<'t>>,
) -> Result<BoundStmts, Stop>
    ensures ok { IfOk result (λ c. does_all around.now inner.now.value (statement_trees (map statement_tree body.now)) ≡ Ok (statements (map statement_of c))) }
    ensures fault { (f : told.Fault) → result ≡ Err (Stop.Fault f) → does_all around.now inner.now.value (statement_trees (map statement_tree body.now)) ≡ Err f }
{
    let mut out = BoundStmts::new(alloc);
    for statement in body {
        let x = link_stmt(statement, alloc, around, inner)?;
        out.push(x)?;
    }
    Ok(out)
}

// The first arm of an `if`, and those behind `elif`.
#[tactic(auto, using(crate::proofs::Fronts::fronts))]
#[cycle(link_body)]
fn link_arms<'t>(
    others: &'t [Arm],
    alloc: Global,
    around: &Around<'_, '_>,
    inner: &Rc<Inner<'t>>,
    first: BoundArm,
) -> Result<BoundArms, Stop>
    ensures ok { IfOk result (λ c. arms_behind around.now inner.now.value (arm_of first) (tail (map arm_tree others.now) nothing) ≡ Ok (arms (map arm_of c))) }
    ensures fault { (f : told.Fault) → result ≡ Err (Stop.Fault f) → arms_behind around.now inner.now.value (arm_of first) (tail (map arm_tree others.now) nothing) ≡ Err f }
{
    let mut out = BoundArms::new(alloc);
    out.push(first)?;
    for arm in others {
        let test = link(&arm.test, alloc, around, inner)?;
        let body = link_suite(&arm.suite, alloc, around, inner)?;
        out.push(BoundArm { test, body })?;
    }
    Ok(out)
}

#[cycle(link_body)]
fn link_otherwise<'t>(
    otherwise: &'t Otherwise,
    alloc: Global,
    around: &Around<'_, '_>,
    inner: &Rc<Inner<'t>>,
) -> Result<BoundStmts, Stop>
    ensures ok { IfOk result (λ c. other_of around.now inner.now.value (otherwise_of otherwise.now) ≡ Ok (statements (map statement_of c))) }
    ensures fault { (f : told.Fault) → result ≡ Err (Stop.Fault f) → other_of around.now inner.now.value (otherwise_of otherwise.now) ≡ Err f }
{
    match otherwise {
        Otherwise::Absent => Ok(BoundStmts::new(alloc)),
        Otherwise::Present(suite) => link_suite(suite, alloc, around, inner),
    }
}

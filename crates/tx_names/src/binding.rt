// Defs and lambdas with slots for names.
ghost use Rattle.std.specs.Prelude.{◌≡◌, [], true, nat_eq, Some, Ok, Err, IfOk, OnOk, map, length};
ghost use Rattle.tx_tree.specs.Tree.{tree_of, body_of as body_tree, block_of};
ghost use Rattle.tx_name_set.specs.NameSet.{place_in};
ghost use Rattle.tx_names.specs.declared.fault.Fault as told;
ghost use Rattle.tx_names.specs.declared.fault.FaultKind.TheVariants as kind;
ghost use Rattle.tx_names.specs.Function.{gives, does};
ghost use Rattle.tx_names.specs.Scope.{role_size, scope_of_def, scope_of_lambda, names_of_def, names_of_lambda};
ghost use Rattle.tx_names.specs.Faults.{fault, first, faults_of_lambda};
ghost use Rattle.tx_names.specs.Linked.{linked, does_body};
ghost use Rattle.tx_names.specs.Sound.{sound};
ghost use Rattle.tx_names.specs.View.{body_of, expr_of, statements, statement_of};
ghost use Rattle.tx_names.specs.Bind.{function_of, defs_of, known_of, error_of, faults_of_block, bound_block, bound_lambda, bound_def};
ghost use Rattle.tx_names.specs.Calls.Whole.{whole};

use crate::around::{Around, Inner};
use crate::columns::add_columns_of_body;
use crate::fault::Stop;
use crate::link::link;
use crate::link_body::link_suite;
use crate::met::{names_of_def, names_of_lambda, plain_params, role_size, row_param, slots_of};
use crate::{
    BindError, Bound, BoundBody, BoundExpr, BoundStmts, Defs, Fault, FaultKind, Role, Routine,
};
use std::alloc::Global;
use std::rc::Rc;
use tx_name_set::Names;
use tx_text::{NoMemory, PyText, Texts};
use tx_tree::{Block, Expr, Suite};

// The error that tells why.
fn error_of(stop: Stop) -> BindError
    ensures { (e : told.Fault) → result ≡ error_of e → stop ≡ Stop.Fault e }
{
    let Stop::Fault(Fault { kind, line }) = stop else {
        return BindError::NoMemory;
    };
    match kind {
        FaultKind::Recursive => BindError::Recursive { line },
        FaultKind::Unknown => BindError::Unknown { line },
        FaultKind::Arity => BindError::Arity { line },
        FaultKind::RowUse => BindError::RowUse { line },
    }
}

// A use of the row's parameter in a def is told at the operator.
fn told_at(at: u32, stop: Stop) -> Stop
    ensures { (e : told.Fault) → result ≡ Stop.Fault e → (e ≡ fault kind.RowUse at) × (d : told.Fault) × (stop ≡ Stop.Fault d) }
{
    match stop {
        Stop::Fault(_) => Stop::Fault(Fault {
            kind: FaultKind::RowUse,
            line: at,
        }),
        Stop::NoMemory => Stop::NoMemory,
    }
}

// As many parameters as the role has.
fn has_params(role: Role, at: u32, params: &[PyText]) -> Result<(), Stop>
    ensures ok { OnOk result (length params.now ≡ role_size role) }
    ensures fault { (e : told.Fault) → result ≡ Err (Stop.Fault e) → (e ≡ fault kind.Arity at) × ((length params.now ≡ role_size role) → ⊥) }
{
    if params.len() == role_size(role) {
        Ok(())
    } else {
        Err(Stop::Fault(Fault {
            kind: FaultKind::Arity,
            line: at,
        }))
    }
}

// The function of this role with these parameters, whose names these are, and this body.
#[tactic(auto, using(crate::proofs::Nodes::nodes))]
fn finished(
    alloc: Global,
    role: Role,
    params: &[PyText],
    names: &Names<'_>,
    body: BoundBody,
) -> Result<Bound, NoMemory>
    requires { sound nat_eq (whole names.now role params.now (body_of body)) ≡ true }
    ensures { IfOk result (λ f. function_of f ≡ whole names.now role params.now (body_of body)) }
{
    let mut columns = Texts::new(alloc);
    add_columns_of_body(&body, &mut columns)?;
    let routine = Routine {
        role,
        params: slots_of(alloc, names, plain_params(role, params))?,
        slots: names.len(),
        body,
    };
    Ok(Bound::new(Rc::new(alloc, routine)?, Rc::new(alloc, columns)?))
}

// The statements of a def that takes this.
fn link_as(
    alloc: Global,
    earlier: &Defs,
    name: &PyText,
    role: Role,
    params: &[PyText],
    suite: &Suite,
) -> Result<BoundStmts, Stop>
    ensures ok { IfOk result (λ ss. does_body (place_in (names_of_def role params.now (body_tree suite.now))) (defs_of earlier.now) (scope_of_def role name.now params.now (body_tree suite.now)) (body_tree suite.now) ≡ Ok (statements (map statement_of ss))) }
    ensures fault { (e : told.Fault) → result ≡ Err (Stop.Fault e) → does_body (place_in (names_of_def role params.now (body_tree suite.now))) (defs_of earlier.now) (scope_of_def role name.now params.now (body_tree suite.now)) (body_tree suite.now) ≡ Err e }
{
    let met = names_of_def(alloc, role, params, suite)?;
    let row = row_param(role, params);
    let around = Around {
        defs: earlier,
        own: Some(name),
        row,
        names: &met.names,
        base: met.base,
    };
    let nothing = Rc::new(alloc, Inner::Nothing)?;
    link_suite(suite, alloc, &around, &nothing)
}

// The function of a def that takes this, with these statements.
fn def_of(
    alloc: Global,
    role: Role,
    params: &[PyText],
    suite: &Suite,
    body: BoundStmts,
) -> Result<Bound, NoMemory>
    requires { sound nat_eq (whole (names_of_def role params.now (body_tree suite.now)) role params.now (does (statements (map statement_of body)))) ≡ true }
    ensures { IfOk result (λ f. function_of f ≡ whole (names_of_def role params.now (body_tree suite.now)) role params.now (does (statements (map statement_of body)))) }
{
    let met = names_of_def(alloc, role, params, suite)?;
    finished(alloc, role, params, &met.names, BoundBody::Does(body))
}

fn bind_def(
    alloc: Global,
    name: &PyText,
    params: &[PyText],
    suite: &Suite,
    earlier: &Defs,
    role: Role,
    at: u32,
) -> Result<Bound, Stop>
    ensures ok { IfOk result (λ f. bound_def (defs_of earlier.now) role at name.now params.now (body_tree suite.now) ≡ Ok (function_of f)) }
    ensures fault { (e : told.Fault) → result ≡ Err (Stop.Fault e) → bound_def (defs_of earlier.now) role at name.now params.now (body_tree suite.now) ≡ Err e }
{
    let as_def = link_as(alloc, earlier, name, Role::Plain(0), params, suite)?;
    has_params(role, at, params)?;
    if let Role::Plain(_) = role {
        return Ok(def_of(alloc, role, params, suite, as_def)?);
    }
    match link_as(alloc, earlier, name, role, params, suite) {
        Ok(used) => Ok(def_of(alloc, role, params, suite, used)?),
        Err(stop) => Err(told_at(at, stop)),
    }
}

/// The function of a def with slots for its names, as an operator uses it in a role; `at` is the line of the operator's
/// argument, or of the def where no operator uses it.
pub fn bind(
    alloc: Global,
    b: &Block,
    earlier: &Defs,
    role: Role,
    at: u32,
) -> Result<Bound, BindError>
    ensures ok { OnOk result (faults_of_block (known_of (defs_of earlier.now)) role at (block_of b.now) ≡ []) }
    ensures function { IfOk result (λ f. bound_block (defs_of earlier.now) role at (block_of b.now) ≡ Ok (function_of f)) }
    ensures fault { (e : told.Fault) → result ≡ Err (error_of e) → first (faults_of_block (known_of (defs_of earlier.now)) role at (block_of b.now)) ≡ Some e }
{
    let Block::Def {
        name,
        params,
        suite,
        ..
    } = b
    else {
        return Err(BindError::Unknown { line: at });
    };
    match bind_def(alloc, name, params.as_slice(), suite, earlier, role, at) {
        Ok(function) => Ok(function),
        Err(stop) => Err(error_of(stop)),
    }
}

// The expression of a lambda that takes this.
fn link_gives(
    alloc: Global,
    params: &[PyText],
    body: &Expr,
    earlier: &Defs,
    role: Role,
) -> Result<BoundExpr, Stop>
    ensures ok { IfOk result (λ x. linked (place_in (names_of_lambda role params.now (tree_of body.now))) (defs_of earlier.now) (scope_of_lambda role params.now) (tree_of body.now) ≡ Ok (expr_of x)) }
    ensures fault { (e : told.Fault) → result ≡ Err (Stop.Fault e) → linked (place_in (names_of_lambda role params.now (tree_of body.now))) (defs_of earlier.now) (scope_of_lambda role params.now) (tree_of body.now) ≡ Err e }
{
    let met = names_of_lambda(alloc, role, params, body)?;
    let row = row_param(role, params);
    let around = Around {
        defs: earlier,
        own: None,
        row,
        names: &met.names,
        base: met.base,
    };
    let nothing = Rc::new(alloc, Inner::Nothing)?;
    link(body, alloc, &around, &nothing)
}

// The function of a lambda that takes this, with this expression.
fn lambda_of(
    alloc: Global,
    role: Role,
    params: &[PyText],
    tree: &Expr,
    body: BoundExpr,
) -> Result<Bound, NoMemory>
    requires { sound nat_eq (whole (names_of_lambda role params.now (tree_of tree.now)) role params.now (gives (expr_of body))) ≡ true }
    ensures { IfOk result (λ f. function_of f ≡ whole (names_of_lambda role params.now (tree_of tree.now)) role params.now (gives (expr_of body))) }
{
    let met = names_of_lambda(alloc, role, params, tree)?;
    finished(alloc, role, params, &met.names, BoundBody::Gives(body))
}

fn link_lambda(
    alloc: Global,
    params: &[PyText],
    body: &Expr,
    earlier: &Defs,
    role: Role,
    at: u32,
) -> Result<Bound, Stop>
    ensures ok { IfOk result (λ f. bound_lambda (defs_of earlier.now) role at params.now (tree_of body.now) ≡ Ok (function_of f)) }
    ensures fault { (e : told.Fault) → result ≡ Err (Stop.Fault e) → bound_lambda (defs_of earlier.now) role at params.now (tree_of body.now) ≡ Err e }
{
    has_params(role, at, params)?;
    let linked = link_gives(alloc, params, body, earlier, role)?;
    Ok(lambda_of(alloc, role, params, body, linked)?)
}

/// The function of a lambda with slots for its names, as an operator uses it in a role; `at` is the line of the operator's
/// argument, which the lambda is.
pub fn bind_lambda(
    alloc: Global,
    params: &Texts,
    body: &Expr,
    earlier: &Defs,
    role: Role,
    at: u32,
) -> Result<Bound, BindError>
    ensures ok { OnOk result (faults_of_lambda (known_of (defs_of earlier.now)) role at params.now (tree_of body.now) ≡ []) }
    ensures function { IfOk result (λ f. bound_lambda (defs_of earlier.now) role at params.now (tree_of body.now) ≡ Ok (function_of f)) }
    ensures fault { (e : told.Fault) → result ≡ Err (error_of e) → first (faults_of_lambda (known_of (defs_of earlier.now)) role at params.now (tree_of body.now)) ≡ Some e }
{
    match link_lambda(alloc, params.as_slice(), body, earlier, role, at) {
        Ok(function) => Ok(function),
        Err(stop) => Err(error_of(stop)),
    }
}

// What a word stands for where it is used: a local that is read or assigned to, a function that is called, a method, a walk, the
// cell of a row.
ghost use Rattle.std.specs.Prelude.{◌≡◌, Ok, Err, IfOk, map, option_copied, option_map};
ghost use Rattle.tx_tree.specs.Tree.{tree_of, trees};
ghost use Rattle.tx_names.specs.declared.fault.Fault as told;
ghost use Rattle.tx_names.specs.Scope.{number_of};
ghost use Rattle.tx_names.specs.Faults.{fault, cell_in};
ghost use Rattle.tx_names.specs.Linked as l;
ghost use Rattle.tx_names.specs.Named.{method_at};
ghost use Rattle.tx_tree.specs.Takes.{walk_takes};
ghost use Rattle.tx_names.specs.View.{expr_of, target_of};
ghost use Rattle.tx_names.specs.Bind.{function_of, defs_of};
ghost use Rattle.tx_names.specs.Calls.Around.{scope_of, slot_of, known, callee_of, linked_target};

use crate::around::{Around, Inner};
use crate::fault::Stop;
use crate::words::{builtin_at, method_at, walk_function_at};
use crate::{Bound, BoundExpr, BoundTarget, Def, Fault, FaultKind, Routine, Slots};
use std::alloc::Global;
use std::rc::Rc;
use tx_text::PyText;
use tx_tree::{Builtin, Expr, Exprs, Method, Target, Walk, Word};

/// A function that is called.
#[derive(Drop)]
pub(crate) enum Callee {
    Function(Builtin),
    Routine(Rc<Routine>),
}

fn fault_at(kind: FaultKind, line: u32) -> Stop
    ensures { result ≡ Stop.Fault (fault kind line) }
{
    Stop::Fault(Fault { kind, line })
}

// ---- locals

/// A name that is read.
pub(crate) fn read(
    around: &Around<'_, '_>,
    inner: &Inner<'_>,
    line: u32,
    name: &PyText,
) -> Result<BoundExpr, Stop>
    ensures ok { IfOk result (λ c. l.read (slot_of around.now) (known around.now) (scope_of around.now inner.now) line name.now ≡ Ok (expr_of c)) }
    ensures fault { (e : told.Fault) → result ≡ Err (Stop.Fault e) → l.read (slot_of around.now) (known around.now) (scope_of around.now inner.now) line name.now ≡ Err e }
{
    if around.is_row(name) {
        return Err(fault_at(FaultKind::RowUse, line));
    }
    if around.is_local(inner, name) {
        Ok(BoundExpr::Local(around.slot(name)))
    } else {
        Err(fault_at(FaultKind::Unknown, line))
    }
}

/// A name that is assigned to.
pub(crate) fn assigned_slot(
    around: &Around<'_, '_>,
    inner: &Inner<'_>,
    line: u32,
    name: &PyText,
) -> Result<usize, Stop>
    ensures ok { IfOk result (λ k. l.assigned_slot (slot_of around.now) (known around.now) (scope_of around.now inner.now) line name.now ≡ Ok k) }
    ensures fault { (e : told.Fault) → result ≡ Err (Stop.Fault e) → l.assigned_slot (slot_of around.now) (known around.now) (scope_of around.now inner.now) line name.now ≡ Err e }
{
    if around.is_row(name) {
        Err(fault_at(FaultKind::RowUse, line))
    } else {
        Ok(around.slot(name))
    }
}

// The names of a target.
fn assigned_slots(
    alloc: Global,
    around: &Around<'_, '_>,
    inner: &Inner<'_>,
    words: &[Word],
) -> Result<Slots, Stop>
    ensures ok { IfOk result (λ ks. l.assigned_slots (slot_of around.now) (known around.now) (scope_of around.now inner.now) words.now ≡ Ok ks) }
    ensures fault { (e : told.Fault) → result ≡ Err (Stop.Fault e) → l.assigned_slots (slot_of around.now) (known around.now) (scope_of around.now inner.now) words.now ≡ Err e }
{
    let mut slots = Slots::new(alloc);
    for word in words {
        let slot = assigned_slot(around, inner, word.line, &word.text)?;
        slots.push(slot)?;
    }
    Ok(slots)
}

/// What an assignment, a loop or a comprehension assigns to.
pub(crate) fn link_target(
    alloc: Global,
    around: &Around<'_, '_>,
    inner: &Inner<'_>,
    target: &Target,
) -> Result<BoundTarget, Stop>
    ensures ok { IfOk result (λ t. linked_target around.now inner.now target.now ≡ Ok (target_of t)) }
    ensures fault { (e : told.Fault) → result ≡ Err (Stop.Fault e) → linked_target around.now inner.now target.now ≡ Err e }
{
    match target {
        Target::Name(word) => {
            let slot = assigned_slot(around, inner, word.line, &word.text)?;
            Ok(BoundTarget::One(slot))
        }
        Target::Names { names, .. } => {
            let slots = assigned_slots(alloc, around, inner, names.as_slice())?;
            Ok(BoundTarget::Several(slots))
        }
        Target::Bracketed { names, .. } => {
            let slots = assigned_slots(alloc, around, inner, names.as_slice())?;
            Ok(BoundTarget::Several(slots))
        }
    }
}

// ---- functions and methods

/// How many arguments there are.
#[tactic(auto, using(crate::proofs::Fronts::numbers))]
pub(crate) fn number_of(args: &Exprs) -> usize
    ensures { result ≡ number_of (trees (map tree_of args.now)) }
{
    args.len()
}

// The function of an earlier def.
fn def_named<'a>(defs: &'a [Def], name: &PyText) -> Option<&'a Bound>
    ensures { option_map function_of (option_copied result) ≡ l.def_named (defs_of defs.now) name.now }
{
    for def in defs {
        if def.name.equal(name) {
            return Some(&def.function);
        }
    }
    None
}

fn call_of_def(
    around: &Around<'_, '_>,
    line: u32,
    name: &PyText,
    count: usize,
) -> Result<Callee, Stop>
    ensures ok { IfOk result (λ c. l.by_def line count (l.def_named (known around.now) name.now) ≡ Ok (callee_of c)) }
    ensures fault { (e : told.Fault) → result ≡ Err (Stop.Fault e) → l.by_def line count (l.def_named (known around.now) name.now) ≡ Err e }
{
    let Some(function) = def_named(around.defs.as_slice(), name) else {
        return Err(fault_at(FaultKind::Unknown, line));
    };
    if function.params().len() != count {
        return Err(fault_at(FaultKind::Arity, line));
    }
    Ok(Callee::Routine(function.routine().clone()?))
}

/// A name that is called with so many arguments.
pub(crate) fn called(
    around: &Around<'_, '_>,
    inner: &Inner<'_>,
    line: u32,
    name: &PyText,
    count: usize,
) -> Result<Callee, Stop>
    ensures ok { IfOk result (λ c. l.called (slot_of around.now) (known around.now) (scope_of around.now inner.now) line name.now count ≡ Ok (callee_of c)) }
    ensures fault { (e : told.Fault) → result ≡ Err (Stop.Fault e) → l.called (slot_of around.now) (known around.now) (scope_of around.now inner.now) line name.now count ≡ Err e }
{
    if around.is_own(name) {
        return Err(fault_at(FaultKind::Recursive, line));
    }
    if around.is_variable(inner, name) {
        return Err(fault_at(FaultKind::Unknown, line));
    }
    if let Some(b) = builtin_at(name) {
        if !b.takes(count) {
            return Err(fault_at(FaultKind::Arity, line));
        }
        return Ok(Callee::Function(b));
    }
    match walk_function_at(name) {
        Some(_) => Err(fault_at(FaultKind::Unknown, line)),
        None => call_of_def(around, line, name, count),
    }
}

/// The method of a word, with so many arguments.
pub(crate) fn method_of(word: &Word, count: usize) -> Result<Method, Stop>
    ensures ok { IfOk result (λ m. l.by_method word.now.line count (method_at word.now.text) ≡ Ok m) }
    ensures fault { (e : told.Fault) → result ≡ Err (Stop.Fault e) → l.by_method word.now.line count (method_at word.now.text) ≡ Err e }
{
    match method_at(&word.text) {
        None => Err(fault_at(FaultKind::Unknown, word.line)),
        Some(m) => {
            if m.takes(count) {
                Ok(m)
            } else {
                Err(fault_at(FaultKind::Arity, word.line))
            }
        }
    }
}

// ---- walks

/// The walk that is called here as an iterable.
pub(crate) fn walk_in(around: &Around<'_, '_>, inner: &Inner<'_>, name: &PyText) -> Option<Walk>
    ensures { result ≡ l.walk_in (scope_of around.now inner.now) name.now }
{
    if around.is_own(name) || around.is_variable(inner, name) {
        return None;
    }
    walk_function_at(name)
}

/// A walk, with so many arguments.
pub(crate) fn counted(walk: Walk, line: u32, count: usize) -> Result<Walk, Stop>
    ensures ok { IfOk result (λ w. l.counted (walk_takes walk) line count walk ≡ Ok w) }
    ensures fault { (e : told.Fault) → result ≡ Err (Stop.Fault e) → l.counted (walk_takes walk) line count walk ≡ Err e }
{
    if walk.takes(count) {
        Ok(walk)
    } else {
        Err(fault_at(FaultKind::Arity, line))
    }
}

// ---- cells

/// The column, where an index is that of the row's parameter at a text literal.
pub(crate) fn cell_in<'a>(around: &Around<'_, '_>, base: &Expr, at: &'a Expr) -> Option<&'a PyText>
    ensures { option_copied result ≡ cell_in (option_copied around.now.row) (tree_of base.now) (tree_of at.now) }
{
    let Expr::Name { name, .. } = base else {
        return None;
    };
    let Expr::Text { value, .. } = at else {
        return None;
    };
    if around.is_row(name) {
        Some(value)
    } else {
        None
    }
}

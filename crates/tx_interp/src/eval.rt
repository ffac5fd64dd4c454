// The interpreter: expressions, statements and bodies.
ghost use Rattle.std.specs.Prelude.{◌≡◌, [], true, nat_eq, map, IfOk, Ok, Err};
ghost use Rattle.std.specs.Option.{option_copied};
ghost use Rattle.tx_base.specs.declared.class.Class.{Class};
ghost use Rattle.tx_names.specs.View.{exprs, pairs, comparisons, statements, arms, target_of, expr_of, statement_of, maybe_of, iterable_of, operand_of, pair_of, arm_of, body_of, routine_of};
ghost use Rattle.tx_meaning.specs.Maps.{row_of};
ghost use Rattle.tx_meaning.specs.Meaning.{means, means_each, means_pairs, means_maybe, means_chain, means_and, means_or, holds, means_items, runs, runs_all, turn, turns, yields, applied};
ghost use Rattle.tx_values.specs.declared.value.Value.TheVariants as v;
ghost use Rattle.tx_interp.specs.Frames.{value_in, map_of, course, adds, builtin_of_each};
ghost use Rattle.tx_interp.specs.Kinds.{is_assign, is_augment, is_binary, is_branch, is_call, is_choice, is_compare, is_comprehension, is_express, is_index, is_method, is_repeat, is_return, is_slice};
ghost use Rattle.tx_names.specs.Function.{dict, list, negation, tuple, unary};
ghost use Rattle.tx_interp.specs.Weighed.{IsGrowing};

use crate::entries::dictionary;
use crate::frame::{
    End, Frame, cell, cell_copy, empty_frame, lend_each, lent_frame, local, local_copy, put, take,
    take_copy,
};
use crate::growing::{Growing, longer, nothing};
use crate::held::{Held, lodged, owned, seen};
use crate::leaf::{finished, has_views, is_list, literal, room_for};
use std::alloc::Global;
use tx_base::Class;
use tx_methods::{builtin, builtin_of_one, has_method, items_of, iterate, method};
use tx_names::{
    BoundArm, BoundBody, BoundExpr, BoundMaybe, BoundOperand, BoundPair, BoundStmt, BoundTarget,
    Iterable, Routine,
};
use tx_ops::{binary, compare, index, slice, unary};
use tx_text::Bytes;
use tx_tree::{Builtin, UnaryOp};
use tx_values::{Items, OpError, Pairs, Value, truthy};

// A def that is called: the value of its body on the arguments alone.
#[cycle(eval)]
fn apply(alloc: Global, f: &Routine, args: &[Value]) -> Result<Value, OpError>
    ensures value { IfOk result (λ v. applied nat_eq (routine_of f.now) (row_of [] []) args.now ≡ Ok v) }
    ensures raise { (c : Class) → result ≡ Err (OpError.Raise c) → applied nat_eq (routine_of f.now) (row_of [] []) args.now ≡ Err c }
{
    let mut frame = empty_frame(alloc);
    lend_each(&mut frame, f.params.as_slice(), args)?;
    run_body(alloc, &f.body, &[], &[], frame)
}

/// What a body gives in a frame.
#[cycle(eval)]
pub(crate) fn run_body<'a>(
    alloc: Global,
    body: &BoundBody,
    names: &[Bytes],
    cells: &'a [Value],
    frame: Frame<'a>,
) -> Result<Value, OpError>
    ensures value { IfOk result (λ v. yields nat_eq (body_of body.now) (row_of names.now cells.now) (map_of frame.entry.items) ≡ Ok v) }
    ensures raise { (c : Class) → result ≡ Err (OpError.Raise c) → yields nat_eq (body_of body.now) (row_of names.now cells.now) (map_of frame.entry.items) ≡ Err c }
{
    let mut frame = frame;
    match body {
        BoundBody::Gives(e) => make(alloc, e, names, &*cells, &frame),
        BoundBody::Does(body) => match run_all(alloc, body.as_slice(), names, cells, &mut frame)? {
            End::GivesBack(value) => Ok(value),
            _ => Ok(Value::Nil),
        },
    }
}

// The value of an expression, to be looked at: one that stands in the row or in the frame is lent, and one that is made stands in a
// room for it. This calls itself as deep as a tree goes; what a node needs stands in a function of its own, so the stack is small.
#[inline(never)]
#[cycle(eval)]
fn look<'b>(
    alloc: Global,
    e: &BoundExpr,
    names: &[Bytes],
    cells: &'b [Value],
    frame: &'b Frame<'_>,
    room: &'b mut Value,
) -> Result<&'b Value, OpError>
    ensures value { IfOk result (λ v. means nat_eq (expr_of e.now) (row_of names.now cells.now) (map_of frame.now.items) ≡ Ok v.now) }
    ensures raise { (c : Class) → result ≡ Err (OpError.Raise c) → means nat_eq (expr_of e.now) (row_of names.now cells.now) (map_of frame.now.items) ≡ Err c }
{
    match e {
        BoundExpr::Local(slot) => local(frame, *slot),
        BoundExpr::Cell(column) => cell(names, cells, column),
        BoundExpr::Paren(a) => look(alloc, a.get(), names, cells, frame, room),
        BoundExpr::And(..) | BoundExpr::Or(..) | BoundExpr::Conditional { .. } => {
            let held = decide(alloc, e, names, cells, frame)?;
            Ok(lodged(held, room))
        }
        _ => {
            *room = make(alloc, e, names, cells, frame)?;
            Ok(&*room)
        }
    }
}

// The value of an expression, lent or owned.
#[inline(never)]
#[cycle(eval)]
fn eval<'b>(
    alloc: Global,
    e: &BoundExpr,
    names: &[Bytes],
    cells: &'b [Value],
    frame: &'b Frame<'_>,
) -> Result<Held<'b>, OpError>
    ensures value { IfOk result (λ v. means nat_eq (expr_of e.now) (row_of names.now cells.now) (map_of frame.now.items) ≡ Ok (value_in v)) }
    ensures raise { (c : Class) → result ≡ Err (OpError.Raise c) → means nat_eq (expr_of e.now) (row_of names.now cells.now) (map_of frame.now.items) ≡ Err c }
{
    match e {
        BoundExpr::Local(slot) => Ok(Held::Lent(local(frame, *slot)?)),
        BoundExpr::Cell(column) => Ok(Held::Lent(cell(names, cells, column)?)),
        BoundExpr::Paren(a) => eval(alloc, a.get(), names, cells, frame),
        BoundExpr::And(..) | BoundExpr::Or(..) | BoundExpr::Conditional { .. } => decide(
            alloc, e, names, cells, frame,
        ),
        _ => Ok(Held::Own(make(alloc, e, names, cells, frame)?)),
    }
}

// The value of an expression, made anew where it stands elsewhere.
#[inline(never)]
#[cycle(eval)]
fn make<'b>(
    alloc: Global,
    e: &BoundExpr,
    names: &[Bytes],
    cells: &'b [Value],
    frame: &'b Frame<'_>,
) -> Result<Value, OpError>
    ensures value { IfOk result (λ v. means nat_eq (expr_of e.now) (row_of names.now cells.now) (map_of frame.now.items) ≡ Ok v) }
    ensures raise { (c : Class) → result ≡ Err (OpError.Raise c) → means nat_eq (expr_of e.now) (row_of names.now cells.now) (map_of frame.now.items) ≡ Err c }
{
    match e {
        BoundExpr::Nil => Ok(Value::Nil),
        BoundExpr::Truth(b) => Ok(Value::Truth(*b)),
        BoundExpr::Int(n) => Ok(Value::Int(*n)),
        BoundExpr::Text(text) => literal(alloc, text),
        BoundExpr::Local(slot) => local_copy(alloc, frame, *slot),
        BoundExpr::Cell(column) => cell_copy(alloc, names, cells, column),
        BoundExpr::Paren(a) => make(alloc, a.get(), names, cells, frame),
        BoundExpr::And(..) | BoundExpr::Or(..) | BoundExpr::Conditional { .. } => decided(
            alloc, e, names, cells, frame,
        ),
        BoundExpr::Tuple(es) => tuple(alloc, es.as_slice(), names, cells, frame),
        BoundExpr::List(es) => list(alloc, es.as_slice(), names, cells, frame),
        BoundExpr::Dict(ps) => dict(alloc, ps.as_slice(), names, cells, frame),
        BoundExpr::Comprehension { .. } => comprehend(alloc, e, names, cells, frame),
        BoundExpr::Call(..) => call_def(alloc, e, names, cells, frame),
        BoundExpr::Builtin(b, es) => call_builtin(alloc, es.as_slice(), *b, names, cells, frame),
        BoundExpr::Method(..) => call_method(alloc, e, names, cells, frame),
        BoundExpr::Index(..) => item_of(alloc, e, names, cells, frame),
        BoundExpr::Slice { .. } => part_of(alloc, e, names, cells, frame),
        BoundExpr::Unary(op, a) => signed(alloc, a.get(), *op, names, cells, frame),
        BoundExpr::Binary(..) => combined(alloc, e, names, cells, frame),
        BoundExpr::Compare(..) => compared(alloc, e, names, cells, frame),
        BoundExpr::Not(a) => negated(alloc, a.get(), names, cells, frame),
    }
}

// Displays of tuples and of lists.
#[inline(never)]
#[cycle(eval)]
fn tuple<'b>(
    alloc: Global,
    es: &[BoundExpr],
    names: &[Bytes],
    cells: &'b [Value],
    frame: &'b Frame<'_>,
) -> Result<Value, OpError>
    ensures value { IfOk result (λ v. means nat_eq (tuple (exprs (map expr_of es.now))) (row_of names.now cells.now) (map_of frame.now.items) ≡ Ok v) }
    ensures raise { (c : Class) → result ≡ Err (OpError.Raise c) → means nat_eq (tuple (exprs (map expr_of es.now))) (row_of names.now cells.now) (map_of frame.now.items) ≡ Err c }
{
    let items = make_each(alloc, es, names, cells, frame)?;
    finished(Value::Tuple(items))
}

#[inline(never)]
#[cycle(eval)]
fn list<'b>(
    alloc: Global,
    es: &[BoundExpr],
    names: &[Bytes],
    cells: &'b [Value],
    frame: &'b Frame<'_>,
) -> Result<Value, OpError>
    ensures value { IfOk result (λ v. means nat_eq (list (exprs (map expr_of es.now))) (row_of names.now cells.now) (map_of frame.now.items) ≡ Ok v) }
    ensures raise { (c : Class) → result ≡ Err (OpError.Raise c) → means nat_eq (list (exprs (map expr_of es.now))) (row_of names.now cells.now) (map_of frame.now.items) ≡ Err c }
{
    let items = make_each(alloc, es, names, cells, frame)?;
    finished(Value::List(items))
}

// Displays of dictionaries: all pairs are made before the first is entered.
#[inline(never)]
#[cycle(eval)]
fn dict<'b>(
    alloc: Global,
    ps: &[BoundPair],
    names: &[Bytes],
    cells: &'b [Value],
    frame: &'b Frame<'_>,
) -> Result<Value, OpError>
    ensures value { IfOk result (λ v. means nat_eq (dict (pairs (map pair_of ps.now))) (row_of names.now cells.now) (map_of frame.now.items) ≡ Ok v) }
    ensures raise { (c : Class) → result ≡ Err (OpError.Raise c) → means nat_eq (dict (pairs (map pair_of ps.now))) (row_of names.now cells.now) (map_of frame.now.items) ≡ Err c }
{
    let all = make_pairs(alloc, ps, names, cells, frame)?;
    let entries = dictionary(alloc, all.as_slice())?;
    finished(Value::Dict(entries))
}

// A call of a def.
#[inline(never)]
#[cycle(eval)]
fn call_def<'b>(
    alloc: Global,
    e: &BoundExpr,
    names: &[Bytes],
    cells: &'b [Value],
    frame: &'b Frame<'_>,
) -> Result<Value, OpError>
    requires kind { is_call (expr_of e.now) ≡ true }
    ensures value { IfOk result (λ v. means nat_eq (expr_of e.now) (row_of names.now cells.now) (map_of frame.now.items) ≡ Ok v) }
    ensures raise { (c : Class) → result ≡ Err (OpError.Raise c) → means nat_eq (expr_of e.now) (row_of names.now cells.now) (map_of frame.now.items) ≡ Err c }
{
    let BoundExpr::Call(f, es) = e else {
        unreachable!();
    };
    let args = make_each(alloc, es.as_slice(), names, cells, frame)?;
    apply(alloc, f, args.as_slice())
}

// A call of a built-in function.
#[inline(never)]
#[cycle(eval)]
fn call_builtin<'b>(
    alloc: Global,
    es: &[BoundExpr],
    b: Builtin,
    names: &[Bytes],
    cells: &'b [Value],
    frame: &'b Frame<'_>,
) -> Result<Value, OpError>
    ensures value { IfOk result (λ v. builtin_of_each b (exprs (map expr_of es.now)) (row_of names.now cells.now) (map_of frame.now.items) ≡ Ok v) }
    ensures raise { (c : Class) → result ≡ Err (OpError.Raise c) → builtin_of_each b (exprs (map expr_of es.now)) (row_of names.now cells.now) (map_of frame.now.items) ≡ Err c }
{
    match es {
        [e] => {
            let mut room = Value::Nil;
            let x = look(alloc, e, names, &*cells, &*frame, &mut room)?;
            builtin_of_one(alloc, b, x)
        }
        _ => {
            let args = make_each(alloc, es, names, cells, frame)?;
            builtin(alloc, b, &args)
        }
    }
}

// A call of a method.
#[inline(never)]
#[cycle(eval)]
fn call_method<'b>(
    alloc: Global,
    e: &BoundExpr,
    names: &[Bytes],
    cells: &'b [Value],
    frame: &'b Frame<'_>,
) -> Result<Value, OpError>
    requires kind { is_method (expr_of e.now) ≡ true }
    ensures value { IfOk result (λ v. means nat_eq (expr_of e.now) (row_of names.now cells.now) (map_of frame.now.items) ≡ Ok v) }
    ensures raise { (c : Class) → result ≡ Err (OpError.Raise c) → means nat_eq (expr_of e.now) (row_of names.now cells.now) (map_of frame.now.items) ≡ Err c }
{
    let BoundExpr::Method(a, m, es) = e else {
        unreachable!();
    };
    let mut room = Value::Nil;
    let on = look(alloc, a.get(), names, &*cells, &*frame, &mut room)?;
    if has_method(*m, on) {
        let args = make_each(alloc, es.as_slice(), names, &*cells, &*frame)?;
        method(alloc, *m, on, &args)
    } else {
        Err(OpError::Raise(Class::AttributeError))
    }
}

// An item.
#[inline(never)]
#[cycle(eval)]
fn item_of<'b>(
    alloc: Global,
    e: &BoundExpr,
    names: &[Bytes],
    cells: &'b [Value],
    frame: &'b Frame<'_>,
) -> Result<Value, OpError>
    requires kind { is_index (expr_of e.now) ≡ true }
    ensures value { IfOk result (λ v. means nat_eq (expr_of e.now) (row_of names.now cells.now) (map_of frame.now.items) ≡ Ok v) }
    ensures raise { (c : Class) → result ≡ Err (OpError.Raise c) → means nat_eq (expr_of e.now) (row_of names.now cells.now) (map_of frame.now.items) ≡ Err c }
{
    let BoundExpr::Index(a, i) = e else {
        unreachable!();
    };
    let mut room = Value::Nil;
    let x = look(alloc, a.get(), names, &*cells, &*frame, &mut room)?;
    let mut more = Value::Nil;
    let y = look(alloc, i.get(), names, &*cells, &*frame, &mut more)?;
    index(alloc, x, y)
}

// A slice.
#[inline(never)]
#[cycle(eval)]
fn part_of<'b>(
    alloc: Global,
    e: &BoundExpr,
    names: &[Bytes],
    cells: &'b [Value],
    frame: &'b Frame<'_>,
) -> Result<Value, OpError>
    requires kind { is_slice (expr_of e.now) ≡ true }
    ensures value { IfOk result (λ v. means nat_eq (expr_of e.now) (row_of names.now cells.now) (map_of frame.now.items) ≡ Ok v) }
    ensures raise { (c : Class) → result ≡ Err (OpError.Raise c) → means nat_eq (expr_of e.now) (row_of names.now cells.now) (map_of frame.now.items) ≡ Err c }
{
    let BoundExpr::Slice { base, from, to } = e else {
        unreachable!();
    };
    let mut room = Value::Nil;
    let x = look(alloc, base.get(), names, &*cells, &*frame, &mut room)?;
    let mut front = Value::Nil;
    let y = look_maybe(alloc, from, names, &*cells, &*frame, &mut front)?;
    let mut back = Value::Nil;
    let z = look_maybe(alloc, to, names, &*cells, &*frame, &mut back)?;
    slice(alloc, x, y, z)
}

#[inline(never)]
#[cycle(eval)]
fn signed<'b>(
    alloc: Global,
    a: &BoundExpr,
    op: UnaryOp,
    names: &[Bytes],
    cells: &'b [Value],
    frame: &'b Frame<'_>,
) -> Result<Value, OpError>
    ensures value { IfOk result (λ v. means nat_eq (unary op (expr_of a.now)) (row_of names.now cells.now) (map_of frame.now.items) ≡ Ok v) }
    ensures raise { (c : Class) → result ≡ Err (OpError.Raise c) → means nat_eq (unary op (expr_of a.now)) (row_of names.now cells.now) (map_of frame.now.items) ≡ Err c }
{
    let mut room = Value::Nil;
    let x = look(alloc, a, names, &*cells, &*frame, &mut room)?;
    unary(op, x)
}

// A binary operator.
#[inline(never)]
#[cycle(eval)]
fn combined<'b>(
    alloc: Global,
    e: &BoundExpr,
    names: &[Bytes],
    cells: &'b [Value],
    frame: &'b Frame<'_>,
) -> Result<Value, OpError>
    requires kind { is_binary (expr_of e.now) ≡ true }
    ensures value { IfOk result (λ v. means nat_eq (expr_of e.now) (row_of names.now cells.now) (map_of frame.now.items) ≡ Ok v) }
    ensures raise { (c : Class) → result ≡ Err (OpError.Raise c) → means nat_eq (expr_of e.now) (row_of names.now cells.now) (map_of frame.now.items) ≡ Err c }
{
    let BoundExpr::Binary(a, op, b) = e else {
        unreachable!();
    };
    let mut room = Value::Nil;
    let x = look(alloc, a.get(), names, &*cells, &*frame, &mut room)?;
    let mut more = Value::Nil;
    let y = look(alloc, b.get(), names, &*cells, &*frame, &mut more)?;
    binary(alloc, *op, x, y)
}

// A chain of comparisons.
#[inline(never)]
#[cycle(eval)]
fn compared<'b>(
    alloc: Global,
    e: &BoundExpr,
    names: &[Bytes],
    cells: &'b [Value],
    frame: &'b Frame<'_>,
) -> Result<Value, OpError>
    requires kind { is_compare (expr_of e.now) ≡ true }
    ensures value { IfOk result (λ v. means nat_eq (expr_of e.now) (row_of names.now cells.now) (map_of frame.now.items) ≡ Ok v) }
    ensures raise { (c : Class) → result ≡ Err (OpError.Raise c) → means nat_eq (expr_of e.now) (row_of names.now cells.now) (map_of frame.now.items) ≡ Err c }
{
    let BoundExpr::Compare(a, os) = e else {
        unreachable!();
    };
    if let [o] = os.as_slice() {
        let mut room = Value::Nil;
        let x = look(alloc, a.get(), names, &*cells, &*frame, &mut room)?;
        let mut more = Value::Nil;
        let y = look(alloc, &o.right, names, &*cells, &*frame, &mut more)?;
        return Ok(Value::Truth(compare(o.op, x, y)?));
    }
    let first = eval(alloc, a.get(), names, cells, frame)?;
    let holds = chain(alloc, os.as_slice(), first, names, cells, frame)?;
    Ok(Value::Truth(holds))
}

#[inline(never)]
#[cycle(eval)]
fn negated<'b>(
    alloc: Global,
    a: &BoundExpr,
    names: &[Bytes],
    cells: &'b [Value],
    frame: &'b Frame<'_>,
) -> Result<Value, OpError>
    ensures value { IfOk result (λ v. means nat_eq (negation (expr_of a.now)) (row_of names.now cells.now) (map_of frame.now.items) ≡ Ok v) }
    ensures raise { (c : Class) → result ≡ Err (OpError.Raise c) → means nat_eq (negation (expr_of a.now)) (row_of names.now cells.now) (map_of frame.now.items) ≡ Err c }
{
    let mut room = Value::Nil;
    let x = look(alloc, a, names, &*cells, &*frame, &mut room)?;
    Ok(Value::Truth(!truthy(x)))
}

// The value of an operand that `and`, `or` or the conditional give, made anew where it stands elsewhere.
#[inline(never)]
#[cycle(eval)]
fn decided<'b>(
    alloc: Global,
    e: &BoundExpr,
    names: &[Bytes],
    cells: &'b [Value],
    frame: &'b Frame<'_>,
) -> Result<Value, OpError>
    requires kind { is_choice (expr_of e.now) ≡ true }
    ensures value { IfOk result (λ v. means nat_eq (expr_of e.now) (row_of names.now cells.now) (map_of frame.now.items) ≡ Ok v) }
    ensures raise { (c : Class) → result ≡ Err (OpError.Raise c) → means nat_eq (expr_of e.now) (row_of names.now cells.now) (map_of frame.now.items) ≡ Err c }
{
    let held = decide(alloc, e, names, cells, frame)?;
    Ok(owned(alloc, held)?)
}

// `and`, `or` and the conditional, which give an operand.
#[inline(never)]
#[cycle(eval)]
fn decide<'b>(
    alloc: Global,
    e: &BoundExpr,
    names: &[Bytes],
    cells: &'b [Value],
    frame: &'b Frame<'_>,
) -> Result<Held<'b>, OpError>
    requires kind { is_choice (expr_of e.now) ≡ true }
    ensures value { IfOk result (λ v. means nat_eq (expr_of e.now) (row_of names.now cells.now) (map_of frame.now.items) ≡ Ok (value_in v)) }
    ensures raise { (c : Class) → result ≡ Err (OpError.Raise c) → means nat_eq (expr_of e.now) (row_of names.now cells.now) (map_of frame.now.items) ≡ Err c }
{
    match e {
        BoundExpr::And(a, es) => {
            let x = eval(alloc, a.get(), names, cells, frame)?;
            conjoin(alloc, es.as_slice(), x, names, cells, frame)
        }
        BoundExpr::Or(a, es) => {
            let x = eval(alloc, a.get(), names, cells, frame)?;
            disjoin(alloc, es.as_slice(), x, names, cells, frame)
        }
        BoundExpr::Conditional { then, test, other } => {
            let holds = {
                let mut room = Value::Nil;
                truthy(look(alloc, test.get(), names, &*cells, &*frame, &mut room)?)
            };
            if holds {
                eval(alloc, then.get(), names, cells, frame)
            } else {
                eval(alloc, other.get(), names, cells, frame)
            }
        }
        _ => unreachable!(),
    }
}

#[tactic(auto, using(crate::proofs::Slots::outs))]
#[cycle(eval)]
fn make_each<'b>(
    alloc: Global,
    es: &[BoundExpr],
    names: &[Bytes],
    cells: &'b [Value],
    frame: &'b Frame<'_>,
) -> Result<Items, OpError>
    ensures value { IfOk result (λ vs. means_each nat_eq (exprs (map expr_of es.now)) (row_of names.now cells.now) (map_of frame.now.items) ≡ Ok vs) }
    ensures raise { (c : Class) → result ≡ Err (OpError.Raise c) → means_each nat_eq (exprs (map expr_of es.now)) (row_of names.now cells.now) (map_of frame.now.items) ≡ Err c }
{
    let mut out = room_for(alloc, es.len())?;
    for e in es {
        out.push(make(alloc, e, names, cells, frame)?)?;
    }
    Ok(out)
}

#[tactic(auto, using(crate::proofs::Slots::outs))]
#[cycle(eval)]
fn make_pairs<'b>(
    alloc: Global,
    ps: &[BoundPair],
    names: &[Bytes],
    cells: &'b [Value],
    frame: &'b Frame<'_>,
) -> Result<Pairs, OpError>
    ensures value { IfOk result (λ vs. means_pairs nat_eq (pairs (map pair_of ps.now)) (row_of names.now cells.now) (map_of frame.now.items) ≡ Ok vs) }
    ensures raise { (c : Class) → result ≡ Err (OpError.Raise c) → means_pairs nat_eq (pairs (map pair_of ps.now)) (row_of names.now cells.now) (map_of frame.now.items) ≡ Err c }
{
    let mut out = Pairs::new(alloc);
    for p in ps {
        let key = make(alloc, &p.key, names, cells, frame)?;
        let value = make(alloc, &p.value, names, cells, frame)?;
        out.push((key, value))?;
    }
    Ok(out)
}

#[inline(never)]
#[cycle(eval)]
fn look_maybe<'b>(
    alloc: Global,
    e: &BoundMaybe,
    names: &[Bytes],
    cells: &'b [Value],
    frame: &'b Frame<'_>,
    room: &'b mut Value,
) -> Result<Option<&'b Value>, OpError>
    ensures value { IfOk result (λ v. means_maybe nat_eq (maybe_of e.now) (row_of names.now cells.now) (map_of frame.now.items) ≡ Ok (option_copied v)) }
    ensures raise { (c : Class) → result ≡ Err (OpError.Raise c) → means_maybe nat_eq (maybe_of e.now) (row_of names.now cells.now) (map_of frame.now.items) ≡ Err c }
{
    match e {
        BoundMaybe::Present(a) => Ok(Some(look(alloc, a.get(), names, cells, frame, room)?)),
        BoundMaybe::Absent => Ok(None),
    }
}

#[inline(never)]
#[cycle(eval)]
fn chain<'b>(
    alloc: Global,
    os: &[BoundOperand],
    first: Held<'b>,
    names: &[Bytes],
    cells: &'b [Value],
    frame: &'b Frame<'_>,
) -> Result<bool, OpError>
    ensures value { IfOk result (λ b. means_chain nat_eq (comparisons (map operand_of os.now)) (value_in first.entry) (row_of names.now cells.now) (map_of frame.now.items) ≡ Ok (v.Truth b)) }
    ensures raise { (c : Class) → result ≡ Err (OpError.Raise c) → means_chain nat_eq (comparisons (map operand_of os.now)) (value_in first.entry) (row_of names.now cells.now) (map_of frame.now.items) ≡ Err c }
{
    let mut x = first;
    for o in os {
        let y = eval(alloc, &o.right, names, cells, frame)?;
        if !compare(o.op, seen(&x), seen(&y))? {
            return Ok(false);
        }
        x = y;
    }
    Ok(true)
}

#[inline(never)]
#[cycle(eval)]
fn conjoin<'b>(
    alloc: Global,
    es: &[BoundExpr],
    first: Held<'b>,
    names: &[Bytes],
    cells: &'b [Value],
    frame: &'b Frame<'_>,
) -> Result<Held<'b>, OpError>
    ensures value { IfOk result (λ h. means_and nat_eq (exprs (map expr_of es.now)) (value_in first.entry) (row_of names.now cells.now) (map_of frame.now.items) ≡ Ok (value_in h)) }
    ensures raise { (c : Class) → result ≡ Err (OpError.Raise c) → means_and nat_eq (exprs (map expr_of es.now)) (value_in first.entry) (row_of names.now cells.now) (map_of frame.now.items) ≡ Err c }
{
    let mut x = first;
    for e in es {
        if !truthy(seen(&x)) {
            return Ok(x);
        }
        x = eval(alloc, e, names, cells, frame)?;
    }
    Ok(x)
}

#[inline(never)]
#[cycle(eval)]
fn disjoin<'b>(
    alloc: Global,
    es: &[BoundExpr],
    first: Held<'b>,
    names: &[Bytes],
    cells: &'b [Value],
    frame: &'b Frame<'_>,
) -> Result<Held<'b>, OpError>
    ensures value { IfOk result (λ h. means_or nat_eq (exprs (map expr_of es.now)) (value_in first.entry) (row_of names.now cells.now) (map_of frame.now.items) ≡ Ok (value_in h)) }
    ensures raise { (c : Class) → result ≡ Err (OpError.Raise c) → means_or nat_eq (exprs (map expr_of es.now)) (value_in first.entry) (row_of names.now cells.now) (map_of frame.now.items) ≡ Err c }
{
    let mut x = first;
    for e in es {
        if truthy(seen(&x)) {
            return Ok(x);
        }
        x = eval(alloc, e, names, cells, frame)?;
    }
    Ok(x)
}

#[cycle(eval)]
fn eval_items<'b>(
    alloc: Global,
    over: &Iterable,
    names: &[Bytes],
    cells: &'b [Value],
    frame: &'b Frame<'_>,
) -> Result<Items, OpError>
    ensures value { IfOk result (λ vs. means_items nat_eq (iterable_of over.now) (row_of names.now cells.now) (map_of frame.now.items) ≡ Ok vs) }
    ensures raise { (c : Class) → result ≡ Err (OpError.Raise c) → means_items nat_eq (iterable_of over.now) (row_of names.now cells.now) (map_of frame.now.items) ≡ Err c }
{
    match over {
        Iterable::Value(a) => {
            let mut room = Value::Nil;
            iterate(
                alloc,
                look(alloc, a.get(), names, &*cells, &*frame, &mut room)?,
            )
        }
        Iterable::Walk(w, es) => {
            let args = make_each(alloc, es.as_slice(), names, cells, frame)?;
            items_of(alloc, *w, &args)
        }
        Iterable::View(a, w) => {
            let x = eval(alloc, a.get(), names, cells, frame)?;
            if !has_views(seen(&x)) {
                return Err(OpError::Raise(Class::AttributeError));
            }
            let mut args = room_for(alloc, 1)?;
            args.push(owned(alloc, x)?)?;
            items_of(alloc, *w, &args)
        }
    }
}

#[cycle(eval)]
fn is_wanted<'b>(
    alloc: Global,
    e: &BoundMaybe,
    names: &[Bytes],
    cells: &'b [Value],
    frame: &'b Frame<'_>,
) -> Result<bool, OpError>
    ensures value { IfOk result (λ b. holds nat_eq (maybe_of e.now) (row_of names.now cells.now) (map_of frame.now.items) ≡ Ok b) }
    ensures raise { (c : Class) → result ≡ Err (OpError.Raise c) → holds nat_eq (maybe_of e.now) (row_of names.now cells.now) (map_of frame.now.items) ≡ Err c }
{
    match e {
        BoundMaybe::Present(a) => {
            let mut room = Value::Nil;
            Ok(truthy(look(alloc, a.get(), names, &*cells, &*frame, &mut room)?))
        }
        BoundMaybe::Absent => Ok(true),
    }
}

#[inline(never)]
#[tactic(auto, unfolding(tx_meaning::specs::Meaning::collect))]
#[cycle(eval)]
fn comprehend<'b>(
    alloc: Global,
    e: &BoundExpr,
    names: &[Bytes],
    cells: &'b [Value],
    frame: &'b Frame<'_>,
) -> Result<Value, OpError>
    requires kind { is_comprehension (expr_of e.now) ≡ true }
    ensures value { IfOk result (λ v. means nat_eq (expr_of e.now) (row_of names.now cells.now) (map_of frame.now.items) ≡ Ok v) }
    ensures raise { (c : Class) → result ≡ Err (OpError.Raise c) → means nat_eq (expr_of e.now) (row_of names.now cells.now) (map_of frame.now.items) ≡ Err c }
{
    let BoundExpr::Comprehension { iterable, .. } = e else {
        unreachable!();
    };
    let items = eval_items(alloc, iterable, names, cells, frame)?;
    let mut out = nothing(alloc);
    for item in items.as_slice() {
        out = add_turn(alloc, e, out, item, names, cells, frame)?;
    }
    Ok(Value::List(out.items))
}

// One turn. The variables of a comprehension are its own: they stand in a frame that has the values of the one around lent.
#[cycle(eval)]
fn add_turn<'b>(
    alloc: Global,
    e: &BoundExpr,
    sofar: Growing,
    item: &Value,
    names: &[Bytes],
    cells: &'b [Value],
    frame: &'b Frame<'_>,
) -> Result<Growing, OpError>
    requires kind { is_comprehension (expr_of e.now) ≡ true }
    requires growing { IsGrowing sofar.items sofar.weight }
    ensures value { IfOk result (λ all. adds (expr_of e.now) (row_of names.now cells.now) sofar.items item.now (map_of frame.now.items) ≡ Ok all.items) }
    ensures growing { IfOk result (λ all. IsGrowing all.items all.weight) }
    ensures raise { (c : Class) → result ≡ Err (OpError.Raise c) → adds (expr_of e.now) (row_of names.now cells.now) sofar.items item.now (map_of frame.now.items) ≡ Err c }
{
    let BoundExpr::Comprehension {
        element,
        target,
        condition,
        ..
    } = e
    else {
        unreachable!();
    };
    let mut inner = lent_frame(alloc, &*frame)?;
    take(alloc, &mut inner, target, Held::Lent(&*item))?;
    if is_wanted(alloc, condition, names, &*cells, &inner)? {
        longer(sofar, make(alloc, element.get(), names, &*cells, &inner)?)
    } else {
        Ok(sofar)
    }
}

#[cycle(eval)]
fn run<'a>(
    alloc: Global,
    s: &BoundStmt,
    names: &[Bytes],
    cells: &'a [Value],
    frame: &mut Frame<'a>,
) -> Result<End, OpError>
    ensures end { IfOk result (λ e. runs nat_eq (statement_of s.now) (row_of names.now cells.now) (map_of frame.old.items) ≡ Ok (course e frame.new.items)) }
    ensures raise { (c : Class) → result ≡ Err (OpError.Raise c) → runs nat_eq (statement_of s.now) (row_of names.now cells.now) (map_of frame.old.items) ≡ Err c }
{
    match s {
        BoundStmt::Pass => Ok(End::GoesOn),
        BoundStmt::Break => Ok(End::Breaks),
        BoundStmt::Continue => Ok(End::Continues),
        BoundStmt::Return(..) => give_back(alloc, s, names, cells, frame),
        BoundStmt::Assign(..) => assign(alloc, s, names, cells, frame),
        BoundStmt::Augment(..) => augment(alloc, s, names, cells, frame),
        BoundStmt::Express(..) => express(alloc, s, names, cells, frame),
        BoundStmt::If(..) => choose(alloc, s, names, cells, frame),
        BoundStmt::For { .. } => repeat(alloc, s, names, cells, frame),
    }
}

// A `return`.
#[inline(never)]
#[cycle(eval)]
fn give_back<'a>(
    alloc: Global,
    s: &BoundStmt,
    names: &[Bytes],
    cells: &'a [Value],
    frame: &mut Frame<'a>,
) -> Result<End, OpError>
    requires kind { is_return (statement_of s.now) ≡ true }
    ensures end { IfOk result (λ e. runs nat_eq (statement_of s.now) (row_of names.now cells.now) (map_of frame.old.items) ≡ Ok (course e frame.new.items)) }
    ensures raise { (c : Class) → result ≡ Err (OpError.Raise c) → runs nat_eq (statement_of s.now) (row_of names.now cells.now) (map_of frame.old.items) ≡ Err c }
{
    match s {
        BoundStmt::Return(BoundMaybe::Present(a)) => Ok(End::GivesBack(make(
            alloc,
            a.get(),
            names,
            &*cells,
            &*frame,
        )?)),
        BoundStmt::Return(BoundMaybe::Absent) => Ok(End::GivesBack(Value::Nil)),
        _ => unreachable!(),
    }
}

// What an assignment keeps: a cell of the row is lent to the frame, which does not outlive it.
#[cycle(eval)]
fn kept<'a>(
    alloc: Global,
    e: &BoundExpr,
    names: &[Bytes],
    cells: &'a [Value],
    frame: &Frame<'a>,
) -> Result<Held<'a>, OpError>
    ensures value { IfOk result (λ v. means nat_eq (expr_of e.now) (row_of names.now cells.now) (map_of frame.now.items) ≡ Ok (value_in v)) }
    ensures raise { (c : Class) → result ≡ Err (OpError.Raise c) → means nat_eq (expr_of e.now) (row_of names.now cells.now) (map_of frame.now.items) ≡ Err c }
{
    match e {
        BoundExpr::Cell(column) => Ok(Held::Lent(cell(names, cells, column)?)),
        _ => Ok(Held::Own(make(alloc, e, names, &*cells, frame)?)),
    }
}

// An assignment.
#[inline(never)]
#[cycle(eval)]
fn assign<'a>(
    alloc: Global,
    s: &BoundStmt,
    names: &[Bytes],
    cells: &'a [Value],
    frame: &mut Frame<'a>,
) -> Result<End, OpError>
    requires kind { is_assign (statement_of s.now) ≡ true }
    ensures end { IfOk result (λ e. runs nat_eq (statement_of s.now) (row_of names.now cells.now) (map_of frame.old.items) ≡ Ok (course e frame.new.items)) }
    ensures raise { (c : Class) → result ≡ Err (OpError.Raise c) → runs nat_eq (statement_of s.now) (row_of names.now cells.now) (map_of frame.old.items) ≡ Err c }
{
    let BoundStmt::Assign(target, a) = s else {
        unreachable!();
    };
    let held = kept(alloc, a, names, cells, &*frame)?;
    take(alloc, frame, target, held)?;
    Ok(End::GoesOn)
}

// `name += value` and its kin.
#[inline(never)]
#[cycle(eval)]
fn augment<'a>(
    alloc: Global,
    s: &BoundStmt,
    names: &[Bytes],
    cells: &'a [Value],
    frame: &mut Frame<'a>,
) -> Result<End, OpError>
    requires kind { is_augment (statement_of s.now) ≡ true }
    ensures end { IfOk result (λ e. runs nat_eq (statement_of s.now) (row_of names.now cells.now) (map_of frame.old.items) ≡ Ok (course e frame.new.items)) }
    ensures raise { (c : Class) → result ≡ Err (OpError.Raise c) → runs nat_eq (statement_of s.now) (row_of names.now cells.now) (map_of frame.old.items) ≡ Err c }
{
    let BoundStmt::Augment(slot, op, a) = s else {
        unreachable!();
    };
    let value = {
        let x = local(&*frame, *slot)?;
        let mut room = Value::Nil;
        let y = look(alloc, a, names, &*cells, &*frame, &mut room)?;
        if is_list(x) {
            return Err(OpError::Raise(Class::ProfileError));
        }
        binary(alloc, *op, x, y)?
    };
    put(frame, *slot, Held::Own(value))?;
    Ok(End::GoesOn)
}

// An expression alone.
#[inline(never)]
#[cycle(eval)]
fn express<'a>(
    alloc: Global,
    s: &BoundStmt,
    names: &[Bytes],
    cells: &'a [Value],
    frame: &mut Frame<'a>,
) -> Result<End, OpError>
    requires kind { is_express (statement_of s.now) ≡ true }
    ensures end { IfOk result (λ e. runs nat_eq (statement_of s.now) (row_of names.now cells.now) (map_of frame.old.items) ≡ Ok (course e frame.new.items)) }
    ensures raise { (c : Class) → result ≡ Err (OpError.Raise c) → runs nat_eq (statement_of s.now) (row_of names.now cells.now) (map_of frame.old.items) ≡ Err c }
{
    let BoundStmt::Express(a) = s else {
        unreachable!();
    };
    let _value = make(alloc, a, names, &*cells, &*frame)?;
    Ok(End::GoesOn)
}

// A `for`: its items are made before its first turn.
#[inline(never)]
#[cycle(eval)]
fn repeat<'a>(
    alloc: Global,
    s: &BoundStmt,
    names: &[Bytes],
    cells: &'a [Value],
    frame: &mut Frame<'a>,
) -> Result<End, OpError>
    requires kind { is_repeat (statement_of s.now) ≡ true }
    ensures end { IfOk result (λ e. runs nat_eq (statement_of s.now) (row_of names.now cells.now) (map_of frame.old.items) ≡ Ok (course e frame.new.items)) }
    ensures raise { (c : Class) → result ≡ Err (OpError.Raise c) → runs nat_eq (statement_of s.now) (row_of names.now cells.now) (map_of frame.old.items) ≡ Err c }
{
    let BoundStmt::For {
        target,
        iterable,
        body,
    } = s
    else {
        unreachable!();
    };
    let items = eval_items(alloc, iterable, names, &*cells, &*frame)?;
    run_turns(
        alloc,
        body.as_slice(),
        target,
        items.as_slice(),
        names,
        cells,
        frame,
    )
}

#[cycle(eval)]
fn run_all<'a>(
    alloc: Global,
    body: &[BoundStmt],
    names: &[Bytes],
    cells: &'a [Value],
    frame: &mut Frame<'a>,
) -> Result<End, OpError>
    ensures end { IfOk result (λ e. runs_all nat_eq (statements (map statement_of body.now)) (row_of names.now cells.now) (map_of frame.old.items) ≡ Ok (course e frame.new.items)) }
    ensures raise { (c : Class) → result ≡ Err (OpError.Raise c) → runs_all nat_eq (statements (map statement_of body.now)) (row_of names.now cells.now) (map_of frame.old.items) ≡ Err c }
{
    for s in body {
        match run(alloc, s, names, cells, frame)? {
            End::GoesOn => {}
            End::Breaks => return Ok(End::Breaks),
            End::Continues => return Ok(End::Continues),
            End::GivesBack(value) => return Ok(End::GivesBack(value)),
        }
    }
    Ok(End::GoesOn)
}

// An `if`.
#[inline(never)]
#[cycle(eval)]
fn choose<'a>(
    alloc: Global,
    s: &BoundStmt,
    names: &[Bytes],
    cells: &'a [Value],
    frame: &mut Frame<'a>,
) -> Result<End, OpError>
    requires kind { is_branch (statement_of s.now) ≡ true }
    ensures end { IfOk result (λ e. runs nat_eq (statement_of s.now) (row_of names.now cells.now) (map_of frame.old.items) ≡ Ok (course e frame.new.items)) }
    ensures raise { (c : Class) → result ≡ Err (OpError.Raise c) → runs nat_eq (statement_of s.now) (row_of names.now cells.now) (map_of frame.old.items) ≡ Err c }
{
    let BoundStmt::If(arms, other) = s else {
        unreachable!();
    };
    for arm in arms.as_slice() {
        let holds = {
            let mut room = Value::Nil;
            truthy(look(alloc, &arm.test, names, &*cells, &*frame, &mut room)?)
        };
        if holds {
            return run_all(alloc, arm.body.as_slice(), names, cells, frame);
        }
    }
    run_all(alloc, other.as_slice(), names, cells, frame)
}

#[cycle(eval)]
fn run_turn<'a>(
    alloc: Global,
    body: &[BoundStmt],
    target: &BoundTarget,
    item: &Value,
    names: &[Bytes],
    cells: &'a [Value],
    frame: &mut Frame<'a>,
) -> Result<End, OpError>
    ensures end { IfOk result (λ e. turn nat_eq (runs_all nat_eq (statements (map statement_of body.now)) (row_of names.now cells.now)) (target_of target.now) item.now (map_of frame.old.items) ≡ Ok (course e frame.new.items)) }
    ensures raise { (c : Class) → result ≡ Err (OpError.Raise c) → turn nat_eq (runs_all nat_eq (statements (map statement_of body.now)) (row_of names.now cells.now)) (target_of target.now) item.now (map_of frame.old.items) ≡ Err c }
{
    take_copy(alloc, frame, target, item)?;
    let end = run_all(alloc, body, names, cells, frame)?;
    Ok(end)
}

#[tactic(auto, unfolding(tx_meaning::specs::Meaning::turns))]
#[cycle(eval)]
fn run_turns<'a>(
    alloc: Global,
    body: &[BoundStmt],
    target: &BoundTarget,
    items: &[Value],
    names: &[Bytes],
    cells: &'a [Value],
    frame: &mut Frame<'a>,
) -> Result<End, OpError>
    ensures end { IfOk result (λ e. turns nat_eq (runs_all nat_eq (statements (map statement_of body.now)) (row_of names.now cells.now)) (target_of target.now) items.now (map_of frame.old.items) ≡ Ok (course e frame.new.items)) }
    ensures raise { (c : Class) → result ≡ Err (OpError.Raise c) → turns nat_eq (runs_all nat_eq (statements (map statement_of body.now)) (row_of names.now cells.now)) (target_of target.now) items.now (map_of frame.old.items) ≡ Err c }
{
    for item in items {
        match run_turn(alloc, body, target, item, names, cells, frame)? {
            End::GoesOn => {}
            End::Continues => {}
            End::Breaks => return Ok(End::GoesOn),
            End::GivesBack(answer) => return Ok(End::GivesBack(answer)),
        }
    }
    Ok(End::GoesOn)
}

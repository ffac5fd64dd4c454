// Calls of functions on the arguments that an operator gives.
ghost use Rattle.std.specs.Prelude.{◌≡◌, ◌+◌, [], ◌∷◌, drop, nat_eq, IfOk, OnOk, Ok, Err};
ghost use Rattle.tx_base.specs.declared.class.Class.{Class};
ghost use Rattle.tx_base.specs.Count.{counted};
ghost use Rattle.tx_names.specs.Bind.{function_of};
ghost use Rattle.tx_meaning.specs.Maps.{no_locals, put_all, row_of};
ghost use Rattle.tx_meaning.specs.Meaning.{applied};
ghost use Rattle.tx_interp.specs.Arguments.{row_given, value_of_second, values_given};
ghost use Rattle.tx_interp.specs.Frames.{map_of};

use crate::eval::run_body;
use crate::frame::{Frame, empty_frame, put};
use crate::held::Held;
use std::alloc::Global;
use std::sync::ledger::Ledger;
use tx_base::{Meter, Steps, step};
use tx_names::Bound;
use tx_text::Bytes;
use tx_values::{Names, OpError, Row, Value};

/// An argument of a function: a value, or a row with the names of its columns.
#[derive(Clone, Copy)]
pub enum Arg<'a> {
    Plain(&'a Value),
    OfRow(&'a Row, &'a Names),
}

/// The value of a function on the arguments that an operator gives, or the class that it raises (Python Language Reference,
/// "Calls"). It counts as one step, whatever it answers. The values among the arguments go to the parameters that take values, in
/// their order, and `x["c"]` of a row parameter reads the row among them.
pub fn call<L: Ledger>(
    alloc: Global,
    f: &Bound,
    first: Arg<'_>,
    second: Option<Arg<'_>>,
    meter: &mut Meter,
    steps: &mut Steps<L>,
) -> Result<Value, OpError>
    ensures value { IfOk result (λ v. applied nat_eq (function_of f.now) (row_given first.entry second.entry) (values_given first.entry second.entry) ≡ Ok v) }
    ensures raise { (c : Class) → result ≡ Err (OpError.Raise c) → applied nat_eq (function_of f.now) (row_given first.entry second.entry) (values_given first.entry second.entry) ≡ Err c }
    ensures steps { steps.new ≡ steps.old + 1 }
    ensures interp { meter.new.interp ≡ counted meter.old.interp 1 }
    ensures typed { meter.new.typed ≡ meter.old.typed }
{
    step(meter, steps);
    uncounted(alloc, f, &first, &second)
}

// The same, of which no step is counted.
#[tactic(auto, using(crate::proofs::Given::applied_is))]
fn uncounted<'a>(
    alloc: Global,
    f: &Bound,
    first: &Arg<'a>,
    second: &Option<Arg<'a>>,
) -> Result<Value, OpError>
    ensures value { IfOk result (λ v. applied nat_eq (function_of f.now) (row_given first.now second.now) (values_given first.now second.now) ≡ Ok v) }
    ensures raise { (c : Class) → result ≡ Err (OpError.Raise c) → applied nat_eq (function_of f.now) (row_given first.now second.now) (values_given first.now second.now) ≡ Err c }
{
    let frame = framed(alloc, f.params().as_slice(), first, second)?;
    let (names, cells) = cells_given(first, second);
    run_body(alloc, f.body(), names, cells, frame)
}

// A frame in which the parameters have the values that are given.
#[tactic(auto, using(crate::proofs::Given::giving))]
fn framed<'a>(
    alloc: Global,
    params: &[usize],
    first: &Arg<'a>,
    second: &Option<Arg<'a>>,
) -> Result<Frame<'a>, OpError>
    ensures value { IfOk result (λ f. map_of f.items ≡ put_all nat_eq params.now (values_given first.now second.now) (no_locals nat_eq)) }
    ensures raise { (c : Class) → result ≡ Err (OpError.Raise c) → ⊥ }
{
    let mut frame = empty_frame(alloc);
    match first {
        Arg::Plain(value) => {
            lend_at(&mut frame, params, 0, value)?;
            lend_second(&mut frame, params, 1, second)?;
        }
        Arg::OfRow(..) => lend_second(&mut frame, params, 0, second)?,
    }
    Ok(frame)
}

// Lends the value of the second argument, where it is one, to the slot at a place.
#[tactic(auto, using(crate::proofs::Given::giving))]
fn lend_second<'a>(
    frame: &mut Frame<'a>,
    slots: &[usize],
    at: usize,
    second: &Option<Arg<'a>>,
) -> Result<(), OpError>
    ensures ok { OnOk result (map_of frame.new.items ≡ put_all nat_eq (drop at slots.now) (value_of_second second.now) (map_of frame.old.items)) }
    ensures raise { (c : Class) → result ≡ Err (OpError.Raise c) → ⊥ }
{
    match second {
        Some(Arg::Plain(value)) => lend_at(frame, slots, at, value),
        _ => Ok(()),
    }
}

// Lends a value to the slot at a place, where there is one.
#[tactic(auto, using(crate::proofs::Given::giving))]
fn lend_at<'a>(
    frame: &mut Frame<'a>,
    slots: &[usize],
    at: usize,
    value: &'a Value,
) -> Result<(), OpError>
    ensures ok { OnOk result (map_of frame.new.items ≡ put_all nat_eq (drop at slots.now) (value.now ∷ []) (map_of frame.old.items)) }
    ensures raise { (c : Class) → result ≡ Err (OpError.Raise c) → ⊥ }
{
    if at < slots.len() {
        put(frame, slots[at], Held::Lent(value))
    } else {
        Ok(())
    }
}

// The names and the cells of the row that is given; without a row there are none.
fn cells_given<'a>(first: &Arg<'a>, second: &Option<Arg<'a>>) -> (&'a [Bytes], &'a [Value])
    ensures { row_of result.0.now result.1.now ≡ row_given first.now second.now }
{
    match (first, second) {
        (Arg::OfRow(row, names), _) => (names.as_slice(), row.cells.as_slice()),
        (_, Some(Arg::OfRow(row, names))) => (names.as_slice(), row.cells.as_slice()),
        _ => (&[], &[]),
    }
}

// Evaluations of functions, and handlers.
ghost use Rattle.std.specs.Prelude.{◌≡◌, ◌+◌, ◌≤◌, IfOk, OnOk, Ok, Err, map};
ghost use Rattle.tx_base.specs.declared.class.Class.{Class};
ghost use Rattle.tx_names.specs.Bind.{function_of};
ghost use Rattle.tx_pipe.specs.Pipe.{handling_of};
ghost use Rattle.tx_plain.specs.Counts.{Follows};
ghost use Rattle.tx_plain.specs.Calls.Tracking.{Tracks};
ghost use Rattle.tx_plain.specs.Handlers.{attempt, evaluations, handled, is_wanted, sought, tried};
ghost use Rattle.tx_plain.specs.Pipeline.{evaluate};
ghost use Rattle.tx_plain.specs.Calls.Given.{input_of};

use std::alloc::Global;
use std::sync::ledger::Ledger;
use tx_base::{Class, Meter, Steps, catches};
use tx_interp::{Arg, call};
use tx_names::Bound;
use tx_pipe::{Handler, Handlers};
use tx_text::NoMemory;
use tx_values::{OpError, Value};

/// What the result of a function must be: any value, or a tuple of so many items.
#[derive(Clone, Copy, Debug, PartialEq, Eq)]
pub enum Want {
    Any,
    TupleOf(u32),
}

/// What an operator's function and its handlers make of an input: a value, no row, or a class that no handler took.
#[derive(Drop)]
pub enum Handled {
    Value(Value),
    Dropped,
    Reported(Class),
}

// Whether a result has the wanted shape.
fn is_wanted(want: Want, x: &Value) -> bool
    ensures { result ≡ is_wanted want x.now }
{
    match want {
        Want::Any => true,
        Want::TupleOf(n) => match x {
            Value::Tuple(items) => items.len() == n as usize,
            _ => false,
        },
    }
}

// One evaluation.
#[tactic(auto, unfolding(crate::specs::Pipeline::evaluate), using(crate::proofs::Counting::tracks_one))]
fn attempt<L: Ledger>(
    alloc: Global,
    f: &Bound,
    want: Want,
    first: &Arg<'_>,
    second: &Option<Arg<'_>>,
    meter: &mut Meter,
    steps: &mut Steps<L>,
) -> Result<Value, OpError>
    ensures value { IfOk result (λ x. attempt evaluate want (input_of first.now second.now) (function_of f.now) ≡ Ok x) }
    ensures raise { (c : Class) → result ≡ Err (OpError.Raise c) → attempt evaluate want (input_of first.now second.now) (function_of f.now) ≡ Err c }
    ensures steps { steps.new ≡ steps.old + 1 }
    ensures counts { Tracks steps.old steps.new meter.old meter.new }
{
    let x = call(alloc, f, *first, *second, meter, steps)?;
    if is_wanted(want, &x) {
        Ok(x)
    } else {
        Err(OpError::Raise(Class::TypeError))
    }
}

// The search for a handler of a class among these.
#[tactic(auto, using(crate::proofs::Counting::tracks))]
fn sought<L: Ledger>(
    alloc: Global,
    want: Want,
    handlers: &[Handler],
    class: Class,
    first: &Arg<'_>,
    second: &Option<Arg<'_>>,
    meter: &mut Meter,
    steps: &mut Steps<L>,
) -> Result<Handled, NoMemory>
    ensures answer { IfOk result (λ h. h ≡ sought evaluate want (input_of first.now second.now) (map handling_of handlers.now) class) }
    ensures steps { OnOk result (steps.new ≡ steps.old + tried evaluate want (input_of first.now second.now) (map handling_of handlers.now) class) }
    ensures most { steps.new ≤ steps.old + tried evaluate want (input_of first.now second.now) (map handling_of handlers.now) class }
    ensures counts { Tracks steps.old steps.new meter.old meter.new }
{
    let [handler, behind @ ..] = handlers else {
        return Ok(Handled::Reported(class));
    };
    match handler {
        Handler::Ignore(c) if catches(*c, class) => Ok(Handled::Dropped),
        Handler::Resolve(c, f) if catches(*c, class) => {
            match attempt(alloc, f, want, first, second, meter, steps) {
                Ok(x) => Ok(Handled::Value(x)),
                Err(OpError::Raise(raised)) => {
                    sought(alloc, want, behind, raised, first, second, meter, steps)
                }
                Err(OpError::NoMemory) => Err(NoMemory),
            }
        }
        _ => sought(alloc, want, behind, class, first, second, meter, steps),
    }
}

/// `handle`, for calls inside the crate.
#[tactic(auto, using(crate::proofs::Counting::tracks))]
pub(crate) fn settle<L: Ledger>(
    alloc: Global,
    f: &Bound,
    want: Want,
    handlers: &Handlers,
    first: &Arg<'_>,
    second: &Option<Arg<'_>>,
    meter: &mut Meter,
    steps: &mut Steps<L>,
) -> Result<Handled, NoMemory>
    ensures answer { IfOk result (λ h. h ≡ handled evaluate want (input_of first.now second.now) (function_of f.now) (map handling_of handlers.now)) }
    ensures steps { OnOk result (steps.new ≡ steps.old + evaluations evaluate want (input_of first.now second.now) (function_of f.now) (map handling_of handlers.now)) }
    ensures most { steps.new ≤ steps.old + evaluations evaluate want (input_of first.now second.now) (function_of f.now) (map handling_of handlers.now) }
    ensures counts { Tracks steps.old steps.new meter.old meter.new }
{
    match attempt(alloc, f, want, first, second, meter, steps) {
        Ok(x) => Ok(Handled::Value(x)),
        Err(OpError::Raise(class)) => sought(
            alloc,
            want,
            handlers.as_slice(),
            class,
            first,
            second,
            meter,
            steps,
        ),
        Err(OpError::NoMemory) => Err(NoMemory),
    }
}

/// Evaluates an operator's function on what it is given, and where it raises a class, or gives a result of another shape
/// (TypeError), goes through the handlers from the front: the first whose class catches is taken. `Ignore` drops the row;
/// `Resolve` evaluates its function on the same input, and what that raises is looked up in the handlers behind it.
#[tactic(auto, using(crate::proofs::Counting::follows))]
pub fn handle<L: Ledger>(
    alloc: Global,
    f: &Bound,
    want: Want,
    handlers: &Handlers,
    first: Arg<'_>,
    second: Option<Arg<'_>>,
    meter: &mut Meter,
    steps: &mut Steps<L>,
) -> Result<Handled, NoMemory>
    ensures answer { IfOk result (λ h. h ≡ handled evaluate want (input_of first.entry second.entry) (function_of f.now) (map handling_of handlers.now)) }
    ensures steps { OnOk result (steps.new ≡ steps.old + evaluations evaluate want (input_of first.entry second.entry) (function_of f.now) (map handling_of handlers.now)) }
    ensures most { steps.new ≤ steps.old + evaluations evaluate want (input_of first.entry second.entry) (function_of f.now) (map handling_of handlers.now) }
    ensures counts { Follows steps.old steps.new meter.old meter.new }
{
    let said = settle(alloc, f, want, handlers, &first, &second, meter, steps);
    let _interp = meter.interp;
    said
}

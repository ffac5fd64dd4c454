// Calls of functions on arguments that are written as Python writes values.
ghost use Rattle.std.specs.Prelude.{◌≡◌, ◌<◌};

use crate::tests::read::bound;
use std::alloc::Global;
use std::marker::Brand;
use std::sync::ledger::{Blank, Ledger};
use tx_base::{Meter, Steps};
use tx_interp::{Arg, call};
use tx_names::{Bound, Defs, Role};
use tx_text::{Bytes, NoMemory, PyText};
use tx_values::{Items, Names, OpError, Origin, Row, Value, copy};

// What an operator gives a function.
#[derive(Drop)]
struct Given {
    value: Option<Value>,
    row: Option<(Row, Names)>,
}

fn lost(_: NoMemory) -> OpError {
    OpError::NoMemory
}

fn counted<L: Ledger>(
    alloc: Global,
    f: &Bound,
    first: Arg<'_>,
    second: Option<Arg<'_>>,
    meter: &mut Meter,
    blank: Blank,
) -> Result<Value, OpError>
    requires name { blank.name ≡ L.name }
    requires parts { blank.parts ≡ L.parts }
    requires some { 0 < L.parts }
{
    let mut steps = Steps::<L>::open(blank);
    call(alloc, f, first, second, meter, &mut steps)
}

/// What a call gives that counts one step; one that counts otherwise gives no memory.
pub(crate) fn called(
    alloc: Global,
    f: &Bound,
    first: Arg<'_>,
    second: Option<Arg<'_>>,
) -> Result<Value, OpError> {
    let mut meter = Meter {
        interp: 6,
        typed: 7,
    };
    let answer = counted::<Brand>(alloc, f, first, second, &mut meter, Blank::new(1));
    if meter.interp == 7 && meter.typed == 7 {
        answer
    } else {
        Err(OpError::NoMemory)
    }
}

// The value of an expression.
fn value_of(alloc: Global, text: &str) -> Result<Value, OpError> {
    let mut lambda = PyText::from_str(alloc, "lambda: ").map_err(lost)?;
    lambda.push_str(text).map_err(lost)?;
    match bound(alloc, lambda.as_str(), Role::Plain(0), &Defs::new(alloc)) {
        Ok(function) => called(alloc, &function, Arg::Plain(&Value::Nil), None),
        Err(_) => Err(OpError::NoMemory),
    }
}

fn add_cell(
    alloc: Global,
    pair: &Value,
    cells: &mut Items,
    names: &mut Names,
) -> Result<(), NoMemory> {
    if let Value::Tuple(pair) = pair {
        if let (Some(Value::Text(name)), Some(cell)) = (pair.get(0), pair.get(1)) {
            let mut bytes = Bytes::new(alloc);
            bytes.push_all(name.as_str().as_bytes())?;
            names.push(bytes)?;
            cells.push(copy(alloc, cell)?)?;
        }
    }
    Ok(())
}

// The row of a list of pairs.
fn row_of(alloc: Global, pairs: &Value) -> Result<(Row, Names), NoMemory> {
    let mut cells = Items::new(alloc);
    let mut names = Names::new(alloc);
    if let Value::List(pairs) = pairs {
        for pair in pairs.as_slice() {
            add_cell(alloc, pair, &mut cells, &mut names)?;
        }
    }
    let origin = Origin::new(alloc);
    Ok((Row { cells, origin }, names))
}

fn with_accumulator(alloc: Global, both: &Value) -> Result<Given, NoMemory> {
    if let Value::Tuple(both) = both {
        if let (Some(value), Some(pairs)) = (both.get(0), both.get(1)) {
            return Ok(Given {
                value: Some(copy(alloc, value)?),
                row: Some(row_of(alloc, pairs)?),
            });
        }
    }
    Err(NoMemory)
}

fn argument_of(alloc: Global, role: Role, text: &str) -> Result<Given, OpError> {
    let argument = value_of(alloc, text)?;
    match role {
        Role::Plain(_) => Ok(Given {
            value: Some(argument),
            row: None,
        }),
        Role::OfRow => Ok(Given {
            value: None,
            row: Some(row_of(alloc, &argument)?),
        }),
        Role::OfAccRow => Ok(with_accumulator(alloc, &argument)?),
    }
}

/// What a function of this role gives on the argument that a text says.
pub(crate) fn answered(alloc: Global, f: &Bound, role: Role, text: &str) -> Result<Value, OpError> {
    let Given { value, row } = argument_of(alloc, role, text)?;
    match (&value, &row) {
        (Some(value), Some((row, names))) => {
            called(alloc, f, Arg::Plain(value), Some(Arg::OfRow(row, names)))
        }
        (Some(value), None) => called(alloc, f, Arg::Plain(value), None),
        (None, Some((row, names))) => called(alloc, f, Arg::OfRow(row, names), None),
        (None, None) => Err(OpError::NoMemory),
    }
}

// One run: the words, the values of the file, and the line.
use crate::operation::{Operation, Reading, named};
use crate::timed::round;
use std::alloc::{AllocError, Global};
use tx_num::{IntRead, read_int};
use tx_place::{Console, Place, ReadError, read_all};
use tx_text::{NoMemory, PyText, Texts, Utf8Fault};
use tx_values::{Items, OpError, Value};

/// How many bytes the file may have.
const LIMIT: u64 = 1 << 30;

/// How many items a list has.
const ITEMS: u64 = 8;

/// Why nothing was printed.
#[derive(Clone, Copy, Debug, PartialEq, Eq)]
pub(crate) enum Refusal {
    Words,
    File,
    /// An operation raised.
    Raised,
    NoMemory,
    Line,
}

impl From<NoMemory> for Refusal {
    fn from(_: NoMemory) -> Self {
        Refusal::NoMemory
    }
}

impl From<AllocError> for Refusal {
    fn from(_: AllocError) -> Self {
        Refusal::NoMemory
    }
}

impl From<OpError> for Refusal {
    fn from(e: OpError) -> Self {
        match e {
            OpError::NoMemory => Refusal::NoMemory,
            OpError::Raise(_) => Refusal::Raised,
        }
    }
}

impl From<ReadError> for Refusal {
    fn from(e: ReadError) -> Self {
        match e {
            ReadError::NoMemory => Refusal::NoMemory,
            ReadError::Fault | ReadError::TooLarge => Refusal::File,
        }
    }
}

impl From<Utf8Fault> for Refusal {
    fn from(e: Utf8Fault) -> Self {
        match e {
            Utf8Fault::NoMemory => Refusal::NoMemory,
            Utf8Fault::NotUtf8 => Refusal::File,
        }
    }
}

// The lines of a file, without their line feeds.
fn lines_of<P: Place>(alloc: Global, place: &mut P, name: &str) -> Result<Texts, Refusal> {
    let bytes = read_all(alloc, place, name, LIMIT)?;
    let text = PyText::from_utf8(alloc, bytes.as_slice())?;
    let mut end = PyText::new(alloc);
    end.push('\n')?;
    Ok(text.split_on(&end)?)
}

fn number_of(line: &PyText) -> Value {
    match read_int(line) {
        IntRead::Value(n) => Value::Int(n),
        _ => Value::Int(0),
    }
}

fn list_from(alloc: Global, first: i128) -> Result<Value, NoMemory> {
    let mut items = Items::new(alloc);
    for more in 0..ITEMS {
        items.push(Value::Int(first.wrapping_add(i128::from(more))))?;
    }
    Ok(Value::List(items))
}

fn list_of(alloc: Global, item: Value) -> Result<Value, NoMemory> {
    let mut items = Items::new(alloc);
    items.push(item)?;
    Ok(Value::List(items))
}

// The value of a line.
fn value_of(
    alloc: Global,
    reading: Reading,
    number: i128,
    line: PyText,
) -> Result<Value, NoMemory> {
    match reading {
        Reading::Numbers => Ok(number_of(&line)),
        Reading::Texts => Ok(Value::Text(line)),
        Reading::Lists => list_from(alloc, number),
        Reading::Numerals => list_of(alloc, Value::Text(line)),
        Reading::Singles => list_of(alloc, number_of(&line)),
    }
}

fn values_of(alloc: Global, reading: Reading, lines: Texts) -> Result<Items, NoMemory> {
    let mut values = Items::new(alloc);
    let mut number = 0i128;
    for line in lines.into_vec() {
        values.push(value_of(alloc, reading, number, line)?)?;
        number = number.wrapping_add(1);
    }
    Ok(values)
}

// The sum over so many rounds.
fn sum_of(
    alloc: Global,
    operation: Operation,
    values: &[Value],
    rounds: u64,
) -> Result<u64, OpError> {
    let mut sum = 0u64;
    for _ in 0..rounds {
        sum = sum.wrapping_add(round(alloc, operation, values)?);
    }
    Ok(sum)
}

/// Does what the words ask for, and says the line.
pub(crate) fn run<P: Place, C: Console>(
    alloc: Global,
    words: &[PyText],
    place: &mut P,
    console: &mut C,
) -> Result<(), Refusal> {
    let [word, file, rounds] = words else {
        return Err(Refusal::Words);
    };
    let Some(operation) = named(word.as_str()) else {
        return Err(Refusal::Words);
    };
    let Ok(rounds) = rounds.as_str().parse::<u64>() else {
        return Err(Refusal::Words);
    };
    let lines = lines_of(alloc, place, file.as_str())?;
    let values = values_of(alloc, operation.reading(), lines)?;
    let sum = sum_of(alloc, operation, values.as_slice(), rounds)?;
    let word = word.as_str();
    let line = format!(in alloc; "{word} {sum}\n")?;
    match console.say(line.as_bytes()) {
        Ok(()) => Ok(()),
        Err(_) => Err(Refusal::Line),
    }
}

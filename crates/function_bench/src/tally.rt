// What is printed of answers: a sum of their numbers, lengths and truths, and how often each class was raised.
use crate::refusal::Refusal;
use std::alloc::Global;
use tx_base::{Class, class_name};
use tx_values::{OpError, Value};

/// Numbers are summed by their last 32 bits.
const LAST_BITS: u128 = 1 << 32;

/// A class and how often it was raised.
#[derive(Clone, Copy, Debug, PartialEq, Eq)]
struct Raised {
    class: Class,
    times: u64,
}

/// The sum, and the classes in the order in which each was raised first.
#[derive(Drop)]
pub(crate) struct Tally {
    sum: u64,
    raised: Vec<Raised>,
}

// What is summed of an answer.
fn worth(answer: &Value) -> u64 {
    match answer {
        Value::Nil => 0,
        Value::Truth(truth) => u64::from(*truth),
        Value::Int(n) => (n.unsigned_abs() % LAST_BITS) as u64,
        Value::Text(text) => text.len() as u64,
        Value::Tuple(items) | Value::List(items) => items.len() as u64,
        Value::Dict(pairs) => pairs.len() as u64,
    }
}

impl Tally {
    /// Of no answer.
    pub(crate) fn new(alloc: Global) -> Tally {
        Tally {
            sum: 0,
            raised: Vec::new(alloc),
        }
    }

    // Where a class stands among those that were raised.
    fn place_of(&self, class: Class) -> Option<usize> {
        self.raised.iter().position(|one| one.class == class)
    }

    fn add_raise(&mut self, class: Class) -> Result<(), Refusal> {
        match self.place_of(class) {
            Some(at) => {
                if let Some(one) = self.raised.get_mut(at) {
                    one.times = one.times.wrapping_add(1);
                }
                Ok(())
            }
            None => Ok(self.raised.push(Raised { class, times: 1 })?),
        }
    }

    /// Adds an answer.
    pub(crate) fn add(&mut self, answer: &Result<Value, OpError>) -> Result<(), Refusal> {
        match answer {
            Ok(value) => {
                self.sum = self.sum.wrapping_add(worth(value));
                Ok(())
            }
            Err(OpError::Raise(class)) => self.add_raise(*class),
            Err(OpError::NoMemory) => Err(Refusal::NoMemory),
        }
    }

    /// The sum and the classes.
    pub(crate) fn text(&self, alloc: Global) -> Result<String, Refusal> {
        let sum = self.sum;
        let mut text = format!(in alloc; "{sum}")?;
        for one in self.raised.as_slice() {
            let name = class_name(one.class);
            let times = one.times;
            let more = format!(in alloc; " {name}:{times}")?;
            text.push_str(more.as_str())?;
        }
        Ok(text)
    }
}

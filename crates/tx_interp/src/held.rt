// Values that an evaluation lends or owns.
ghost use Rattle.std.specs.Prelude.{◌≡◌, IfOk};
ghost use Rattle.tx_interp.specs.Frames.{value_in};

use crate::leaf::copied;
use std::alloc::Global;
use tx_text::NoMemory;
use tx_values::Value;

/// A value: one that stands in an argument, a row or a frame is lent, one that was made is owned.
#[derive(Drop)]
pub(crate) enum Held<'a> {
    Lent(&'a Value),
    Own(Value),
}

/// The value, to be looked at.
pub(crate) fn seen<'b>(held: &'b Held<'_>) -> &'b Value
    ensures { result.now ≡ value_in held.now }
{
    match held {
        Held::Lent(value) => value,
        Held::Own(value) => value,
    }
}

/// The value, for one who keeps it: a lent one is made anew.
pub(crate) fn owned(alloc: Global, held: Held<'_>) -> Result<Value, NoMemory>
    ensures { IfOk result (λ v. v ≡ value_in held.entry) }
{
    match held {
        Held::Lent(value) => copied(alloc, value),
        Held::Own(value) => Ok(value),
    }
}

/// The value, to be looked at: one that is owned moves into a room for it.
pub(crate) fn lodged<'b>(held: Held<'b>, room: &'b mut Value) -> &'b Value
    ensures { result.now ≡ value_in held.entry }
{
    match held {
        Held::Lent(value) => value,
        Held::Own(value) => {
            *room = value;
            &*room
        }
    }
}

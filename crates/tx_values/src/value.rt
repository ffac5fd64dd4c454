// The seven kinds of value.
use tx_base::Class;
use tx_text::{NoMemory, PyText, Sequence};

/// A list of values.
pub type Items = Sequence<Value>;

/// The pairs of a dictionary, a key with its value, in order of first entry.
pub type Pairs = Sequence<(Value, Value)>;

/// A value of the language (Python Language Reference, "The standard type hierarchy"). Contracts see it as plain data: a
/// text as its code points, a container as the list of what it holds.
///
/// Every call of this crate takes any value. A value of the language is *valid*: within the limits of weight and depth,
/// its dictionaries with hashable keys of which no two are equal. The calls go down a value by recursion; an operation
/// puts one container over valid parts and asks `made`, so no value is deeper than 17.
#[derive(Drop)]
pub enum Value {
    Nil,
    Truth(bool),
    Int(i128),
    Text(PyText),
    Tuple(Items),
    List(Items),
    Dict(Pairs),
}

const _: () = prove!(size_of::<Value>() <= 48);

/// Why an operation gave no value.
#[derive(Clone, Copy, Debug, PartialEq, Eq)]
pub enum OpError {
    Raise(Class),
    NoMemory,
}

impl From<NoMemory> for OpError {
    ghost use Rattle.std.specs.Prelude.{◌≡◌};
    ghost use Rattle.tx_values.specs.declared.value.OpError.TheVariants as op_error;

    ghost from_gives = { λ _ e. e ≡ op_error.NoMemory };

    fn from(_: NoMemory) -> Self {
        OpError::NoMemory
    }
}

// The faults of names.
use std::alloc::{AllocError, AllocFailed};
use thiserror::Error;
use tx_text::NoMemory;

/// The kinds of faults of names, in the order in which they count at one token.
#[derive(Clone, Copy, Debug, PartialEq, Eq)]
pub enum FaultKind {
    /// A def that calls itself.
    Recursive,
    /// A name that is read and no local, or called and neither a built-in function nor an earlier def; a method that there
    /// is not; a walk or a view outside the iterable of a `for` or a comprehension.
    Unknown,
    /// A number of arguments or of parameters that there is not.
    Arity,
    /// A row's parameter other than in `x["literal"]`.
    RowUse,
}

/// A fault and the line of its token.
#[derive(Clone, Copy, Debug, PartialEq, Eq)]
pub struct Fault {
    pub kind: FaultKind,
    pub line: u32,
}

/// Why a def or a lambda gives no function.
#[derive(Clone, Copy, Debug, PartialEq, Eq, Error)]
pub enum BindError {
    #[error("line {line}: a name that is not known here")]
    Unknown { line: u32 },
    #[error("line {line}: a wrong number of arguments or parameters")]
    Arity { line: u32 },
    #[error("line {line}: a function that calls itself")]
    Recursive { line: u32 },
    #[error("line {line}: a row used as a value")]
    RowUse { line: u32 },
    #[error("out of memory")]
    NoMemory,
}

/// Why a part of a function is not linked.
#[derive(Clone, Copy, Debug, PartialEq, Eq)]
pub(crate) enum Stop {
    Fault(Fault),
    NoMemory,
}

impl From<NoMemory> for Stop {
    ghost use Rattle.std.specs.Prelude.{◌≡◌};
    ghost use Rattle.tx_names.specs.declared.fault.Stop.TheVariants as stop;

    ghost from_gives = { λ _ e. e ≡ stop.NoMemory };

    fn from(_: NoMemory) -> Self {
        Stop::NoMemory
    }
}

impl From<AllocError> for Stop {
    ghost use Rattle.std.specs.Prelude.{◌≡◌};
    ghost use Rattle.tx_names.specs.declared.fault.Stop.TheVariants as stop;

    ghost from_gives = { λ _ e. e ≡ stop.NoMemory };

    fn from(_: AllocError) -> Self {
        Stop::NoMemory
    }
}

impl<T: Drop> From<AllocFailed<T>> for Stop {
    ghost use Rattle.std.specs.Prelude.{◌≡◌};
    ghost use Rattle.tx_names.specs.declared.fault.Stop.TheVariants as stop;

    ghost from_gives = { λ _ e. e ≡ stop.NoMemory };

    fn from(_: AllocFailed<T>) -> Self {
        Stop::NoMemory
    }
}

// Why the reader finds no tree.
use std::alloc::AllocError;
use tx_text::NoMemory;

/// Why the reader finds no tree.
#[derive(Clone, Copy, Debug, PartialEq, Eq)]
pub(crate) enum Fault {
    NotABlock,
    NoMemory,
}

impl From<NoMemory> for Fault {
    ghost use Rattle.std.specs.Prelude.{◌≡◌};
    ghost use Rattle.tx_parse.specs.declared.fault.Fault.TheVariants as fault;

    ghost from_gives = { λ _ e. e ≡ fault.NoMemory };

    fn from(_: NoMemory) -> Self {
        Fault::NoMemory
    }
}

impl From<AllocError> for Fault {
    ghost use Rattle.std.specs.Prelude.{◌≡◌};
    ghost use Rattle.tx_parse.specs.declared.fault.Fault.TheVariants as fault;

    ghost from_gives = { λ _ e. e ≡ fault.NoMemory };

    fn from(_: AllocError) -> Self {
        Fault::NoMemory
    }
}

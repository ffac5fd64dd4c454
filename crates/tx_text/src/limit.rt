// Texts that may grow past a limit.
ghost use Rattle.std.specs.Prelude.{◌≡◌};

use crate::NoMemory;
use thiserror::Error;

/// Why a text with a limit was not made.
#[derive(Clone, Copy, Debug, PartialEq, Eq, Error)]
pub enum Long {
    #[error("too long")]
    TooLong,
    #[error("out of memory")]
    NoMemory,
}

impl From<NoMemory> for Long {
    ghost use Rattle.tx_text.specs.declared.limit.Long.TheVariants as long;

    ghost from_gives = { λ _ e. e ≡ long.NoMemory };

    fn from(_: NoMemory) -> Self {
        Long::NoMemory
    }
}

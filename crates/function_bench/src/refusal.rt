// Why nothing was printed.
use std::alloc::{AllocError, AllocFailed};
use tx_names::BindError;
use tx_parse::BlockError;
use tx_place::ReadError;
use tx_text::{NoMemory, Utf8Fault};
use tx_tokens::TokenError;

#[derive(Clone, Copy, Debug, PartialEq, Eq)]
pub(crate) enum Refusal {
    Words,
    File,
    /// The script has no function.
    Script,
    NoMemory,
    Line,
}

impl From<NoMemory> for Refusal {
    fn from(_: NoMemory) -> Self {
        Refusal::NoMemory
    }
}

impl From<AllocError> for Refusal {
    fn from(_: AllocError) -> Self {
        Refusal::NoMemory
    }
}

impl<T: Drop> From<AllocFailed<T>> for Refusal {
    fn from(_: AllocFailed<T>) -> Self {
        Refusal::NoMemory
    }
}

impl From<ReadError> for Refusal {
    fn from(e: ReadError) -> Self {
        match e {
            ReadError::NoMemory => Refusal::NoMemory,
            ReadError::Fault | ReadError::TooLarge => Refusal::File,
        }
    }
}

impl From<Utf8Fault> for Refusal {
    fn from(e: Utf8Fault) -> Self {
        match e {
            Utf8Fault::NoMemory => Refusal::NoMemory,
            Utf8Fault::NotUtf8 => Refusal::File,
        }
    }
}

impl From<TokenError> for Refusal {
    fn from(e: TokenError) -> Self {
        match e {
            TokenError::NoMemory => Refusal::NoMemory,
            _ => Refusal::Script,
        }
    }
}

impl From<BlockError> for Refusal {
    fn from(e: BlockError) -> Self {
        match e {
            BlockError::NoMemory => Refusal::NoMemory,
            _ => Refusal::Script,
        }
    }
}

impl From<BindError> for Refusal {
    fn from(e: BindError) -> Self {
        match e {
            BindError::NoMemory => Refusal::NoMemory,
            _ => Refusal::Script,
        }
    }
}

impl Refusal {
    /// The line to the standard error.
    pub(crate) fn complaint(self) -> &'static str {
        match self {
            Refusal::Words => "function_bench: the words are JOB SCRIPT FILE ROUNDS\n",
            Refusal::File => "function_bench: a file was not read\n",
            Refusal::Script => "function_bench: the script has no function\n",
            Refusal::NoMemory => "function_bench: out of memory\n",
            Refusal::Line => "function_bench: the line was not printed\n",
        }
    }

    /// The status of the program.
    pub(crate) fn status(self) -> u8 {
        match self {
            Refusal::Words => 2,
            Refusal::Script => 3,
            Refusal::File => 6,
            Refusal::NoMemory => 8,
            Refusal::Line => 9,
        }
    }
}

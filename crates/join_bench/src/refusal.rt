// Why nothing was printed.
use std::alloc::AllocError;
use tx_place::ReadError;
use tx_text::NoMemory;

#[derive(Clone, Copy, Debug, PartialEq, Eq)]
pub(crate) enum Refusal {
    Words,
    File,
    NoMemory,
    Line,
}

impl From<NoMemory> for Refusal {
    fn from(_: NoMemory) -> Self {
        Refusal::NoMemory
    }
}

impl From<AllocError> for Refusal {
    fn from(_: AllocError) -> Self {
        Refusal::NoMemory
    }
}

impl From<ReadError> for Refusal {
    fn from(e: ReadError) -> Self {
        match e {
            ReadError::NoMemory => Refusal::NoMemory,
            ReadError::Fault | ReadError::TooLarge => Refusal::File,
        }
    }
}

impl Refusal {
    /// The line to the standard error.
    pub(crate) fn complaint(self) -> &'static str {
        match self {
            Refusal::Words => "join_bench: the words are JOB STRIDE ROUNDS FILE..\n",
            Refusal::File => "join_bench: a file was not read\n",
            Refusal::NoMemory => "join_bench: out of memory\n",
            Refusal::Line => "join_bench: the line was not printed\n",
        }
    }

    /// The status of the program.
    pub(crate) fn status(self) -> u8 {
        match self {
            Refusal::Words => 2,
            Refusal::File => 6,
            Refusal::NoMemory => 8,
            Refusal::Line => 9,
        }
    }
}

// A script with its files, and an accepted command: all that it writes and says, before the first byte is written.
use tx_pipe::{Pipe, Schemas};
use tx_place::Files;
use tx_plain::Sources;
use tx_text::Bytes;

/// A script with its files: its pipe, what its operators read, and their columns.
#[derive(Drop)]
pub struct Prepared {
    pub pipe: Pipe,
    pub sources: Sources,
    pub columns: Schemas,
}

/// The files that a command writes, in order, the line that it says, whether it says its counts behind that, and the numbers of
/// its answer.
#[derive(Debug, Drop)]
pub struct Accepted {
    pub writes: Files,
    pub line: Bytes,
    pub stats: bool,
    pub rows: u64,
    pub reported: u64,
}

// What a command line asks for.
use tx_text::PyText;

/// What the words of a command line ask for.
#[derive(Debug, Drop)]
pub enum Command {
    /// Runs a script: with samples of so many rows, with the passes in an order that a seed draws, and with a line of
    /// counts said at the end.
    Run {
        script: PyText,
        sample: u32,
        order: Option<u64>,
        stats: bool,
    },
    /// Makes the checks of a script, and runs nothing.
    Check {
        script: PyText,
    },
    /// Writes a file of so many rows, which a seed draws.
    Generate {
        seed: u64,
        rows: u32,
        file: PyText,
    },
}

// How a command ends.
ghost use Rattle.std.specs.Prelude.{◌≡◌};
ghost use Rattle.tuplex_run.specs.Status.{status_of};

use tx_script::ScriptFault;
use tx_text::PyText;

/// The first column that an operator asks for and that its input does not have.
#[derive(Debug, Drop)]
pub struct ColumnFault {
    pub operator: u32,
    pub name: PyText,
}

/// The outcome of a command. Each but `Done` and `ConsoleFault` is complained of, in one line.
#[derive(Debug, Drop)]
pub enum Outcome {
    /// A run has written its output and its report: `rows` is the number of rows of the output without its header, and
    /// `reported` that of the exceptions in the report. A check found its script accepted with its files, and both are 0.
    /// `generate` has written its file of so many rows.
    Done { rows: u64, reported: u64 },
    /// The words ask for no command.
    Words,
    /// The script fails a check.
    Script(ScriptFault),
    /// A column that the script names is absent.
    Columns(ColumnFault),
    /// The input of this name has more than 67,108,864 bytes.
    TooLarge { name: PyText },
    /// The script or the input of this name was not read.
    ReadFault { name: PyText },
    /// The output, the report or the generated file of this name was not written.
    WriteFault { name: PyText },
    /// Memory was refused.
    NoMemory,
    /// The files, if there are any, are written, and what is due was not said.
    ConsoleFault,
}

/// The status that the program ends with.
pub fn status(outcome: &Outcome) -> u8
    ensures { result ≡ status_of outcome.now }
{
    match outcome {
        Outcome::Done { .. } => 0,
        Outcome::Words => 2,
        Outcome::Script(_) => 3,
        Outcome::Columns(_) => 4,
        Outcome::TooLarge { .. } => 5,
        Outcome::ReadFault { .. } => 6,
        Outcome::WriteFault { .. } => 7,
        Outcome::NoMemory => 8,
        Outcome::ConsoleFault => 9,
    }
}

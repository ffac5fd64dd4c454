// The commands that run no script: what a check says, and the table that is generated.
ghost use Rattle.std.specs.Prelude.{◌≡◌, ◌∷◌, [], IfOk, IfErr};
ghost use Rattle.tuplex_run.specs.Commands.{accepted_line, check_deed, generate_deed, rows_line};
ghost use Rattle.tuplex_run.specs.Calls.Accept.{as_deed};

use crate::Outcome;
use crate::accept::Accepted;
use std::alloc::Global;
use tx_generate::rows;
use tx_place::Files;
use tx_text::{Bytes, NoMemory, PyText};

fn accepted_line(alloc: Global) -> Result<Bytes, NoMemory>
    ensures { IfOk result (λ line. line ≡ accepted_line) }
{
    let mut line = Bytes::new(alloc);
    line.push_all(b"accepted\n")?;
    Ok(line)
}

/// What is said of a script that is accepted with its files.
pub(crate) fn checked(alloc: Global) -> Result<Accepted, Outcome>
    ensures deed { IfOk result (λ run. as_deed run 0 ≡ check_deed) }
    ensures memory { IfErr result (λ refusal. refusal ≡ Outcome.NoMemory) }
{
    let Ok(line) = accepted_line(alloc) else {
        return Err(Outcome::NoMemory);
    };
    Ok(Accepted {
        writes: Files::new(alloc),
        line,
        stats: false,
        rows: 0,
        reported: 0,
    })
}

fn rows_line(alloc: Global, count: u32) -> Result<Bytes, NoMemory>
    ensures { IfOk result (λ line. line ≡ rows_line count) }
{
    let text = format!(in alloc; "rows {count}\n")?;
    let mut line = Bytes::new(alloc);
    line.push_all(text.as_bytes())?;
    Ok(line)
}

fn one_file(alloc: Global, name: &PyText, bytes: Bytes) -> Result<Files, NoMemory>
    ensures { IfOk result (λ files. files ≡ (name.now, bytes) ∷ []) }
{
    let name = PyText::from_str(alloc, name.as_str())?;
    let mut files = Files::new(alloc);
    files.push((name, bytes))?;
    Ok(files)
}

// The table, and what is said of it.
fn table(alloc: Global, seed: u64, count: u32, file: &PyText) -> Result<Accepted, NoMemory>
    ensures { IfOk result (λ run. as_deed run 0 ≡ generate_deed seed count file.now) }
{
    let bytes = rows(alloc, seed, count)?;
    let line = rows_line(alloc, count)?;
    let writes = one_file(alloc, file, bytes)?;
    Ok(Accepted {
        writes,
        line,
        stats: false,
        rows: u64::from(count),
        reported: 0,
    })
}

/// A file with so many rows that a seed draws.
pub(crate) fn generated(
    alloc: Global,
    seed: u64,
    count: u32,
    file: &PyText,
) -> Result<Accepted, Outcome>
    ensures deed { IfOk result (λ run. as_deed run 0 ≡ generate_deed seed count file.now) }
    ensures memory { IfErr result (λ refusal. refusal ≡ Outcome.NoMemory) }
{
    match table(alloc, seed, count, file) {
        Ok(run) => Ok(run),
        Err(_) => Err(Outcome::NoMemory),
    }
}

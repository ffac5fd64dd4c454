// The columns of sources.
ghost use Rattle.std.specs.Prelude.{◌≡◌, IfOk, IfErr, map};
ghost use mathlib.Core.Logic.{inr};
ghost use Rattle.tx_pipe.specs.Pipe.{pipe_of};
ghost use Rattle.tx_pipe.specs.Lawful.{Lawful};
ghost use Rattle.tuplex_run.specs.Inputs.{columns_in, header_of};
ghost use Rattle.tuplex_run.specs.Calls.Refusals.{ColumnsRefusal};

use crate::{ColumnFault, Outcome};
use std::alloc::Global;
use tx_pipe::{ColumnsError, Headers, Pipe, Schemas, columns};
use tx_plain::Sources;
use tx_records::CsvSource;
use tx_text::{Bytes, NoMemory};
use tx_values::Names;

// The same name, made anew.
fn copy_name(alloc: Global, name: &Bytes) -> Result<Bytes, NoMemory>
    ensures { IfOk result (λ copy. copy ≡ name.now) }
{
    let mut copy = Bytes::new(alloc);
    copy.push_all(name.as_slice())?;
    Ok(copy)
}

// The same names, made anew.
fn copy_names(alloc: Global, names: &[Bytes]) -> Result<Names, NoMemory>
    ensures { IfOk result (λ copies. copies ≡ names.now) }
{
    let mut copies = Names::new(alloc);
    for name in names {
        copies.push(copy_name(alloc, name)?)?;
    }
    Ok(copies)
}

// The columns of a source; where there is none, none.
fn header_of(alloc: Global, source: &Option<CsvSource>) -> Result<Names, NoMemory>
    ensures { IfOk result (λ names. names ≡ header_of source.now) }
{
    match source {
        None => Ok(Names::new(alloc)),
        Some(source) => copy_names(alloc, source.names.as_slice()),
    }
}

fn headers_of(alloc: Global, sources: &[Option<CsvSource>]) -> Result<Headers, NoMemory>
    ensures { IfOk result (λ headers. headers ≡ map header_of sources.now) }
{
    let mut headers = Headers::new(alloc);
    for source in sources {
        headers.push(header_of(alloc, source)?)?;
    }
    Ok(headers)
}

/// The columns of the operators of a pipe on its sources.
pub(crate) fn columns_of(alloc: Global, pipe: &Pipe, sources: &Sources) -> Result<Schemas, Outcome>
    requires { Lawful (pipe_of pipe.now) }
    ensures columns { IfOk result (λ s. columns_in (map header_of sources.now) (pipe_of pipe.now) ≡ inr s) }
    ensures refused { IfErr result (ColumnsRefusal (columns_in (map header_of sources.now) (pipe_of pipe.now))) }
{
    let Ok(headers) = headers_of(alloc, sources.as_slice()) else {
        return Err(Outcome::NoMemory);
    };
    match columns(alloc, pipe, &headers) {
        Ok(schemas) => Ok(schemas),
        Err(ColumnsError::Unknown { operator, name }) => {
            Err(Outcome::Columns(ColumnFault { operator, name }))
        }
        Err(ColumnsError::NoMemory) => Err(Outcome::NoMemory),
    }
}

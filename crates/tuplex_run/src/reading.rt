// A script with its files: the script, its inputs, and their columns.
ghost use Rattle.std.specs.Prelude.{◌≡◌, ◌∷◌, [], true, IfOk, IfErr, OnOk, Contains};
ghost use mathlib.Core.Logic.{inr};
ghost use Rattle.tx_pipe.specs.Pipe.{pipe_of};
ghost use Rattle.tx_pipe.specs.Lawful.{Lawful};
ghost use Rattle.tx_script.specs.Accepted as text;
ghost use Rattle.tuplex_run.specs.Inputs.{inputs_in, input_names, inputs_read};
ghost use Rattle.tuplex_run.specs.Due.{on_script, IsReadFor, pipe_of_script};
ghost use Rattle.tuplex_run.specs.Ends.{FailedAmong};
ghost use Rattle.tuplex_run.specs.Calls.Accept.{as_ready, ready_on_pipe, ready_on_sources};
ghost use Rattle.tuplex_run.specs.Calls.Refusals.{OnlyRead, NoReadFailed, CheckRefusal, ScriptRefusal, InputsRefusal, PipeRefusal, ColumnsRefusal, PreparedRefusal};

use crate::Outcome;
use crate::accept::Prepared;
use crate::header::columns_of;
use crate::input::read_inputs;
use crate::whole::read_named;
use std::alloc::Global;
use tx_pipe::Pipe;
use tx_place::Place;
use tx_plain::Sources;
use tx_script::{ScriptError, ScriptFault, ScriptKind, read_script};
use tx_text::{Bytes, PyText};

/// A script has at most so many bytes.
const SCRIPT_LIMIT: u64 = 262_144;

/// A script of more bytes.
const TOO_LONG: ScriptFault = ScriptFault {
    kind: ScriptKind::TooLong,
    line: 0,
};

/// The pipe of a script with these bytes, where no check fails.
fn checked(alloc: Global, script: &PyText, bytes: &Bytes) -> Result<Pipe, Outcome>
    ensures lawful { IfOk result (λ pipe. Lawful (pipe_of pipe)) }
    ensures pipe { IfOk result (λ pipe. text.Accepted script.now bytes.now (pipe_of pipe)) }
    ensures refused { IfErr result (CheckRefusal script.now bytes.now) }
{
    match read_script(alloc, script, bytes) {
        Ok(pipe) => Ok(pipe),
        Err(ScriptError::Fault(fault)) => Err(Outcome::Script(fault)),
        Err(ScriptError::NoMemory) => Err(Outcome::NoMemory),
    }
}

/// The pipe of the script.
fn read_pipe<P: Place>(alloc: Global, place: &mut P, script: &PyText) -> Result<Pipe, Outcome>
    ensures only { OnlyRead (P.state place.old) (P.state place.new) }
    ensures still { OnOk result (NoReadFailed (P.state place.old) (P.state place.new)) }
    ensures lawful { IfOk result (λ pipe. Lawful (pipe_of pipe)) }
    ensures pipe { (P.state place.old).tells ≡ true
        → IfOk result (λ pipe. pipe_of_script (P.state place.old).held script.now (inr (pipe_of pipe))) }
    ensures refused { IfErr result (ScriptRefusal script.now (P.state place.old) (P.state place.new)) }
    ensures named { (P.state place.old).names_faults ≡ true
        → FailedAmong (Contains (script.now ∷ [])) (P.state place.old) (P.state place.new) }
{
    match read_named(alloc, place, script, SCRIPT_LIMIT) {
        Err(refusal) => Err(refusal),
        Ok(None) => Err(Outcome::Script(TOO_LONG)),
        Ok(Some(bytes)) => checked(alloc, script, &bytes),
    }
}

/// What the operators of a pipe read.
fn sources_of<P: Place>(alloc: Global, place: &mut P, pipe: &Pipe) -> Result<Sources, Outcome>
    requires { Lawful (pipe_of pipe.now) }
    ensures only { OnlyRead (P.state place.old) (P.state place.new) }
    ensures still { OnOk result (NoReadFailed (P.state place.old) (P.state place.new)) }
    ensures sources { (P.state place.old).tells ≡ true
        → IfOk result (λ sources. inputs_in (P.state place.old).held 1 (pipe_of pipe.now) ≡ inr sources) }
    ensures refused { IfErr result (InputsRefusal 1 (pipe_of pipe.now) (P.state place.old) (P.state place.new)) }
    ensures named { (P.state place.old).tells ≡ true → (P.state place.old).names_faults ≡ true
        → FailedAmong (Contains (inputs_read (input_names (pipe_of pipe.now)) (P.state place.old).held)) (P.state place.old) (P.state place.new) }
{
    let mut sources = Sources::new(alloc);
    match read_inputs(alloc, place, 1, pipe.as_slice(), &mut sources) {
        Ok(()) => Ok(sources),
        Err(refusal) => Err(refusal),
    }
}

/// A pipe with what its operators read and their columns, where the columns that it asks for are there.
fn with_columns(alloc: Global, pipe: Pipe, sources: Sources) -> Result<Prepared, Outcome>
    requires { Lawful (pipe_of pipe) }
    ensures lawful { IfOk result (λ prepared. Lawful (pipe_of prepared.pipe)) }
    ensures ready { IfOk result (λ prepared. ready_on_sources (pipe_of pipe) sources ≡ inr (as_ready prepared)) }
    ensures refused { IfErr result (ColumnsRefusal (ready_on_sources (pipe_of pipe) sources)) }
{
    match columns_of(alloc, &pipe, &sources) {
        Err(refusal) => Err(refusal),
        Ok(columns) => Ok(Prepared {
            pipe,
            sources,
            columns,
        }),
    }
}

/// Reads the inputs of a pipe, and looks for its columns.
fn with_inputs<P: Place>(alloc: Global, place: &mut P, pipe: Pipe) -> Result<Prepared, Outcome>
    requires { Lawful (pipe_of pipe) }
    ensures only { OnlyRead (P.state place.old) (P.state place.new) }
    ensures still { OnOk result (NoReadFailed (P.state place.old) (P.state place.new)) }
    ensures lawful { IfOk result (λ prepared. Lawful (pipe_of prepared.pipe)) }
    ensures ready { (P.state place.old).tells ≡ true
        → IfOk result (λ prepared. ready_on_pipe (P.state place.old).held (pipe_of pipe) ≡ inr (as_ready prepared)) }
    ensures refused { IfErr result (PipeRefusal (pipe_of pipe) (P.state place.old) (P.state place.new)) }
    ensures named { (P.state place.old).tells ≡ true → (P.state place.old).names_faults ≡ true
        → FailedAmong (Contains (inputs_read (input_names (pipe_of pipe)) (P.state place.old).held)) (P.state place.old) (P.state place.new) }
{
    match sources_of(alloc, place, &pipe) {
        Err(refusal) => Err(refusal),
        Ok(sources) => with_columns(alloc, pipe, sources),
    }
}

/// A script with its files, where it is accepted with them.
pub(crate) fn prepare<P: Place>(
    alloc: Global,
    place: &mut P,
    script: &PyText,
) -> Result<Prepared, Outcome>
    ensures only { OnlyRead (P.state place.old) (P.state place.new) }
    ensures still { OnOk result (NoReadFailed (P.state place.old) (P.state place.new)) }
    ensures lawful { IfOk result (λ prepared. Lawful (pipe_of prepared.pipe)) }
    ensures ready { (P.state place.old).tells ≡ true
        → IfOk result (λ prepared. on_script script.now (P.state place.old).held (inr (as_ready prepared))) }
    ensures refused { IfErr result (PreparedRefusal script.now (P.state place.old) (P.state place.new)) }
    ensures named { (P.state place.old).tells ≡ true → (P.state place.old).names_faults ≡ true
        → FailedAmong (IsReadFor script.now (P.state place.old).held) (P.state place.old) (P.state place.new) }
{
    match read_pipe(alloc, place, script) {
        Err(refusal) => Err(refusal),
        Ok(pipe) => with_inputs(alloc, place, pipe),
    }
}

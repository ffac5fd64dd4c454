// The inputs of a pipe, in the order of its operators.
ghost use Rattle.std.specs.Prelude.{◌≡◌, ◌⊎◌, ◌<◌, ◌+◌, ◌^◌, ◌∷◌, [], true, IfOk, IfErr, OnOk, length, option_to_list, Contains};
ghost use mathlib.Core.Logic.{inr};
ghost use Rattle.tx_records.specs.Records.{plain, records_of};
ghost use Rattle.tx_records.specs.Source.{source_of};
ghost use Rattle.tx_pipe.specs.Pipe.{operator_of, pipe_of, source_file};
ghost use Rattle.tuplex_run.specs.Inputs.{source_in, input_in, input_names, inputs_read};
ghost use Rattle.tuplex_run.specs.Ends.{FailedAmong};
ghost use Rattle.tuplex_run.specs.Calls.Refusals.{OnlyRead, NoReadFailed, SourceRefusal, InputRefusal, InputsRefusal, AddsInput, AddsInputs};

use crate::Outcome;
use crate::whole::read_named;
use std::alloc::Global;
use tx_pipe::{Node, Operator};
use tx_place::Place;
use tx_plain::Sources;
use tx_records::{CsvSource, source};
use tx_text::{Bytes, PyText};
use tx_values::Naming;

/// An input has at most so many bytes.
const INPUT_LIMIT: u64 = 67_108_864;

// A file that is larger.
fn too_large(alloc: Global, name: &PyText) -> Outcome
    ensures { (result ≡ Outcome.TooLarge name.now) ⊎ (result ≡ Outcome.NoMemory) }
{
    match PyText::from_str(alloc, name.as_str()) {
        Ok(name) => Outcome::TooLarge { name },
        Err(_) => Outcome::NoMemory,
    }
}

// The source that the bytes of a file make for the operator of this number.
fn source_of(
    alloc: Global,
    bytes: &Bytes,
    naming: &Naming,
    number: u32,
) -> Result<CsvSource, Outcome>
    ensures source { IfOk result (λ s. s ≡ source_of plain number naming.now (records_of plain bytes.now)) }
    ensures memory { IfErr result (λ refusal. refusal ≡ Outcome.NoMemory) }
{
    match source(alloc, bytes, naming, number) {
        Ok(source) => Ok(source),
        Err(_) => Err(Outcome::NoMemory),
    }
}

// The source that a file makes for the operator of this number.
fn read_source<P: Place>(
    alloc: Global,
    place: &mut P,
    number: u32,
    file: &PyText,
    naming: &Naming,
) -> Result<CsvSource, Outcome>
    ensures only { OnlyRead (P.state place.old) (P.state place.new) }
    ensures still { OnOk result (NoReadFailed (P.state place.old) (P.state place.new)) }
    ensures source { (P.state place.old).tells ≡ true
        → IfOk result (λ s. source_in (P.state place.old).held number file.now naming.now.names ≡ inr s) }
    ensures refused { IfErr result (SourceRefusal number file.now naming.now.names (P.state place.old) (P.state place.new)) }
    ensures named { (P.state place.old).names_faults ≡ true
        → FailedAmong (Contains (file.now ∷ [])) (P.state place.old) (P.state place.new) }
{
    match read_named(alloc, place, file, INPUT_LIMIT) {
        Err(refusal) => Err(refusal),
        Ok(None) => Err(too_large(alloc, file)),
        Ok(Some(bytes)) => source_of(alloc, &bytes, naming, number),
    }
}

// What the operator of this number reads: a source its file, and any other nothing.
fn read_input<P: Place>(
    alloc: Global,
    place: &mut P,
    number: u32,
    operator: &Operator,
) -> Result<Option<CsvSource>, Outcome>
    ensures only { OnlyRead (P.state place.old) (P.state place.new) }
    ensures still { OnOk result (NoReadFailed (P.state place.old) (P.state place.new)) }
    ensures source { (P.state place.old).tells ≡ true
        → IfOk result (λ s. input_in (P.state place.old).held number (operator_of operator.now) ≡ inr s) }
    ensures refused { IfErr result (InputRefusal number (operator_of operator.now) (P.state place.old) (P.state place.new)) }
    ensures named { (P.state place.old).names_faults ≡ true
        → FailedAmong (Contains (option_to_list (source_file (operator_of operator.now)))) (P.state place.old) (P.state place.new) }
{
    match operator {
        Operator::Csv { file, naming } => match read_source(alloc, place, number, file, naming) {
            Ok(source) => Ok(Some(source)),
            Err(refusal) => Err(refusal),
        },
        _ => Ok(None),
    }
}

// The same, and adds it.
fn add_input<P: Place>(
    alloc: Global,
    place: &mut P,
    number: u32,
    operator: &Operator,
    sources: &mut Sources,
) -> Result<(), Outcome>
    ensures only { OnlyRead (P.state place.old) (P.state place.new) }
    ensures still { OnOk result (NoReadFailed (P.state place.old) (P.state place.new)) }
    ensures source { (P.state place.old).tells ≡ true
        → OnOk result (AddsInput (P.state place.old).held number (operator_of operator.now) sources.old sources.new) }
    ensures refused { IfErr result (InputRefusal number (operator_of operator.now) (P.state place.old) (P.state place.new)) }
    ensures named { (P.state place.old).names_faults ≡ true
        → FailedAmong (Contains (option_to_list (source_file (operator_of operator.now)))) (P.state place.old) (P.state place.new) }
{
    match read_input(alloc, place, number, operator) {
        Err(refusal) => Err(refusal),
        Ok(source) => match sources.push(source) {
            Ok(()) => Ok(()),
            Err(_) => Err(Outcome::NoMemory),
        },
    }
}

/// Reads what the operators from a number on read, and adds it.
pub(crate) fn read_inputs<P: Place>(
    alloc: Global,
    place: &mut P,
    number: u32,
    nodes: &[Node],
    sources: &mut Sources,
) -> Result<(), Outcome>
    requires { number + length nodes.now < 2 ^ 32 }
    ensures only { OnlyRead (P.state place.old) (P.state place.new) }
    ensures still { OnOk result (NoReadFailed (P.state place.old) (P.state place.new)) }
    ensures sources { (P.state place.old).tells ≡ true
        → OnOk result (AddsInputs (P.state place.old).held number (pipe_of nodes.now) sources.old sources.new) }
    ensures refused { IfErr result (InputsRefusal number (pipe_of nodes.now) (P.state place.old) (P.state place.new)) }
    ensures named { (P.state place.old).tells ≡ true → (P.state place.old).names_faults ≡ true
        → FailedAmong (Contains (inputs_read (input_names (pipe_of nodes.now)) (P.state place.old).held)) (P.state place.old) (P.state place.new) }
{
    match nodes {
        [] => Ok(()),
        [first, rest @ ..] => match add_input(alloc, place, number, &first.operator, sources) {
            Err(refusal) => Err(refusal),
            Ok(()) => read_inputs(alloc, place, number + 1, rest, sources),
        },
    }
}

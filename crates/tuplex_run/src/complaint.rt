// The texts of complaints.
ghost use Rattle.std.specs.Prelude.{◌≡◌, ◌++◌, IfOk, encode_utf8_all};
ghost use Rattle.tuplex_run.specs.Complaint.{column_complaint, complaint_of, kind_word, script_complaint};

use crate::ColumnFault;
use std::alloc::Global;
use tx_script::{ScriptFault, ScriptKind};
use tx_text::{Bytes, NoMemory, PyText};

// The word of a check.
fn kind_word(kind: ScriptKind) -> &'static str
    ensures { result.now ≡ kind_word kind }
{
    match kind {
        ScriptKind::TooLong => "TooLong",
        ScriptKind::NotText => "NotText",
        ScriptKind::Token => "Token",
        ScriptKind::Indent => "Indent",
        ScriptKind::Width => "Width",
        ScriptKind::Outside => "Outside",
        ScriptKind::NotABlock => "NotABlock",
        ScriptKind::TooDeep => "TooDeep",
        ScriptKind::Operator => "Operator",
        ScriptKind::TooManyOperators => "TooManyOperators",
        ScriptKind::TooManyDefs => "TooManyDefs",
        ScriptKind::Name => "Name",
        ScriptKind::Arity => "Arity",
        ScriptKind::Recursive => "Recursive",
        ScriptKind::RowUse => "RowUse",
        ScriptKind::HandlerPlace => "HandlerPlace",
        ScriptKind::PipeUse => "PipeUse",
        ScriptKind::NoEnd => "NoEnd",
        ScriptKind::OutputIsInput => "OutputIsInput",
    }
}

/// The complaint of a script that is refused.
pub(crate) fn script_complaint(alloc: Global, fault: &ScriptFault) -> Result<Bytes, NoMemory>
    ensures { IfOk result (λ bytes. bytes ≡ script_complaint fault.now) }
{
    let line = fault.line;
    let word = kind_word(fault.kind);
    let text = format!(in alloc; "tuplex: script line {line}: {word}\n")?;
    let mut bytes = Bytes::new(alloc);
    bytes.push_all(text.as_bytes())?;
    Ok(bytes)
}

// A name between two texts.
fn around(alloc: Global, front: &[u8], name: &PyText, end: &[u8]) -> Result<Bytes, NoMemory>
    ensures { IfOk result (λ bytes. bytes ≡ front.now ++ (encode_utf8_all name.now ++ end.now)) }
{
    let mut text = Bytes::new(alloc);
    text.push_all(front)?;
    text.push_all(name.as_str().as_bytes())?;
    text.push_all(end)?;
    Ok(text)
}

/// The complaint of a column that is absent.
pub(crate) fn column_complaint(alloc: Global, fault: &ColumnFault) -> Result<Bytes, NoMemory>
    ensures { IfOk result (λ bytes. bytes ≡ column_complaint fault.now) }
{
    let operator = fault.operator;
    let front = format!(in alloc; "tuplex: operator {operator}: no column ")?;
    around(alloc, front.as_bytes(), &fault.name, b"\n")
}

/// The complaint of a file.
pub(crate) fn complaint_of(alloc: Global, name: &PyText, what: &[u8]) -> Result<Bytes, NoMemory>
    ensures { IfOk result (λ bytes. bytes ≡ complaint_of name.now what.now) }
{
    around(alloc, b"tuplex: ", name, what)
}

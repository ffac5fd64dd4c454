// Scripts in plain text, with what `read_script` answers.
mod accepted;
mod pipe;
mod refused;

use accepted::ACCEPTED;
use pipe::put_pipe;
use refused::{LONG, REFUSED};
use std::alloc::{AllocError, Global};
use std::fmt::Write;
use tx_script::{ScriptError, ScriptFault, ScriptKind, read_script};
use tx_text::{Bytes, NoMemory, PyText};

fn kind_name(kind: ScriptKind) -> &'static str {
    match kind {
        ScriptKind::TooLong => "TooLong",
        ScriptKind::NotText => "NotText",
        ScriptKind::Token => "Token",
        ScriptKind::Indent => "Indent",
        ScriptKind::Width => "Width",
        ScriptKind::Outside => "Outside",
        ScriptKind::NotABlock => "NotABlock",
        ScriptKind::TooDeep => "TooDeep",
        ScriptKind::Operator => "Operator",
        ScriptKind::TooManyOperators => "TooManyOperators",
        ScriptKind::TooManyDefs => "TooManyDefs",
        ScriptKind::Name => "Name",
        ScriptKind::Arity => "Arity",
        ScriptKind::Recursive => "Recursive",
        ScriptKind::RowUse => "RowUse",
        ScriptKind::HandlerPlace => "HandlerPlace",
        ScriptKind::PipeUse => "PipeUse",
        ScriptKind::NoEnd => "NoEnd",
        ScriptKind::OutputIsInput => "OutputIsInput",
    }
}

// The bytes of a script in the notation of the table: `~` is a line feed, `^` a tab, `%` a carriage return, and `$` the byte 255.
fn bytes_of(alloc: Global, written: &str) -> Result<Bytes, NoMemory> {
    let mut bytes = Bytes::new(alloc);
    for byte in written.as_bytes() {
        let byte = match *byte {
            b'~' => b'\n',
            b'^' => b'\t',
            b'%' => b'\r',
            b'$' => 255,
            other => other,
        };
        bytes.push(byte)?;
    }
    Ok(bytes)
}

fn answer(alloc: Global, bytes: &Bytes, whole: bool) -> Result<String, AllocError> {
    let Ok(own) = PyText::from_str(alloc, "script.py") else {
        return Err(AllocError);
    };
    let mut out = String::new(alloc);
    match read_script(alloc, &own, bytes) {
        Ok(pipe) => {
            if whole {
                put_pipe(&mut out, &pipe)?;
            } else {
                out.push_str("accepted")?;
            }
        }
        Err(ScriptError::Fault(ScriptFault { kind, line })) => {
            let name = kind_name(kind);
            write!(out, "{name} {line}")?;
        }
        Err(ScriptError::NoMemory) => out.push_str("NoMemory")?,
    }
    Ok(out)
}

// What is answered to a script of the table: its pipe, where the whole of it is asked for.
fn answer_to(alloc: Global, written: &str, whole: bool) -> Result<String, AllocError> {
    match bytes_of(alloc, written) {
        Ok(bytes) => answer(alloc, &bytes, whole),
        Err(NoMemory) => Err(AllocError),
    }
}

// Whether a row's script is answered so.
fn is_answered(alloc: Global, row: &str, whole: bool) -> bool {
    let Some((wanted, written)) = row.split_once(" | ") else {
        return false;
    };
    match answer_to(alloc, written, whole) {
        Ok(found) => found.as_str() == wanted,
        Err(_) => false,
    }
}

#[test]
fn scripts_are_refused_at_their_first_fault(rt: HostRuntime) {
    let mut rows = 0usize;
    for row in REFUSED.lines() {
        assert!(rt; is_answered(rt.alloc(), row, false), "{row}");
        rows = rows.wrapping_add(1);
    }
    assert!(rt; rows == 94);
}

#[test]
fn accepted_scripts_have_these_pipes(rt: HostRuntime) {
    let mut rows = 0usize;
    for row in ACCEPTED.lines() {
        assert!(rt; is_answered(rt.alloc(), row, true), "{row}");
        rows = rows.wrapping_add(1);
    }
    assert!(rt; rows == 8);
}

// A script that letters behind it make as long as this.
fn long_script(alloc: Global, written: &str, length: usize) -> Result<Bytes, NoMemory> {
    let mut bytes = bytes_of(alloc, written)?;
    for _ in bytes.len()..length {
        bytes.push(b'x')?;
    }
    Ok(bytes)
}

// Whether a row's script, made as long as it says, is answered so.
fn is_answered_at_length(alloc: Global, row: &str) -> bool {
    let Some((head, written)) = row.split_once(" | ") else {
        return false;
    };
    let Some((wanted, length)) = head.split_once(" ; ") else {
        return false;
    };
    let length = length.parse::<usize>().unwrap_or(0);
    let Ok(bytes) = long_script(alloc, written, length) else {
        return false;
    };
    match answer(alloc, &bytes, false) {
        Ok(found) => found.as_str() == wanted && bytes.len() == length,
        Err(_) => false,
    }
}

#[test]
fn the_longest_scripts_are_read(rt: HostRuntime) {
    let mut rows = 0usize;
    for row in LONG.lines() {
        assert!(rt; is_answered_at_length(rt.alloc(), row), "{row}");
        rows = rows.wrapping_add(1);
    }
    assert!(rt; rows == 7);
}

// Scripts over files: a row has the script, the files that its sources read, in the order of the sources, and what is due: the
// output, the report behind its first line, and how many functions were evaluated. A file's lines stand between ` / `.
ghost use Rattle.std.specs.Prelude.{◌≡◌, ◌<◌};
ghost use Rattle.tx_pipe.specs.Pipe.{pipe_of};
ghost use Rattle.tx_pipe.specs.Lawful.{Lawful};

mod rows;

use std::alloc::Global;
use std::marker::Brand;
use std::sync::ledger::{Blank, Ledger};
use tx_base::{Meter, Steps};
use tx_pipe::{Headers, Operator, Pipe, Schemas, columns};
use tx_plain::{Answer, Sources, run_plain};
use tx_records::source;
use tx_script::read_script;
use tx_text::{Bytes, PyText, Sequence};
use tx_values::Names;

// A file whose lines stand between slashes.
fn file_of(alloc: Global, text: &str) -> Option<Bytes> {
    let mut bytes = Bytes::new(alloc);
    if text == "-" {
        return Some(bytes);
    }
    for line in text.split(" / ") {
        bytes.push_all(line.as_bytes()).ok()?;
        bytes.push_all(b"\n").ok()?;
    }
    Some(bytes)
}

fn copy_names(alloc: Global, names: &Names) -> Option<Names> {
    let mut all = Names::new(alloc);
    for name in names.as_slice() {
        let mut copy = Bytes::new(alloc);
        copy.push_all(name.as_slice()).ok()?;
        all.push(copy).ok()?;
    }
    Some(all)
}

#[derive(Drop)]
struct Read {
    headers: Headers,
    sources: Sources,
}

fn sources_of(alloc: Global, pipe: &Pipe, files: &str) -> Option<Read> {
    let mut headers = Headers::new(alloc);
    let mut sources = Sources::new(alloc);
    let mut lines = files.lines();
    let mut number: u32 = 0;
    for node in pipe.as_slice() {
        number = number.wrapping_add(1);
        match &node.operator {
            Operator::Csv { naming, .. } => {
                let file = file_of(alloc, lines.next()?)?;
                let read = source(alloc, &file, naming, number).ok()?;
                headers.push(copy_names(alloc, &read.names)?).ok()?;
                sources.push(Some(read)).ok()?;
            }
            _ => {
                headers.push(Names::new(alloc)).ok()?;
                sources.push(None).ok()?;
            }
        }
    }
    Some(Read { headers, sources })
}

#[derive(Drop)]
struct Ran {
    answer: Answer,
    interp: u64,
}

fn counted<L: Ledger>(
    alloc: Global,
    pipe: &Pipe,
    schemas: &Schemas,
    sources: &Sources,
    blank: Blank,
) -> Option<Ran>
    requires name { blank.name ≡ L.name }
    requires parts { blank.parts ≡ L.parts }
    requires some { 0 < L.parts }
    requires lawful { Lawful (pipe_of pipe.now) }
{
    let mut meter = Meter::new();
    let mut steps = Steps::<L>::open(blank);
    let answer = run_plain(alloc, pipe, schemas, sources, &mut meter, &mut steps).ok()?;
    Some(Ran {
        answer,
        interp: meter.interp,
    })
}

fn run(alloc: Global, script: &str, files: &str) -> Option<Ran> {
    let own = PyText::from_str(alloc, "s.txs").ok()?;
    let mut bytes = Bytes::new(alloc);
    bytes.push_all(script.as_bytes()).ok()?;
    let Ok(pipe) = read_script(alloc, &own, &bytes) else {
        return None;
    };
    let Read { headers, sources } = sources_of(alloc, &pipe, files)?;
    let schemas = columns(alloc, &pipe, &headers).ok()?;
    counted::<Brand>(alloc, &pipe, &schemas, &sources, Blank::new(1))
}

fn is_file(alloc: Global, bytes: &Bytes, due: &str) -> bool {
    match file_of(alloc, due) {
        Some(file) => file.as_slice() == bytes.as_slice(),
        None => false,
    }
}

fn is_report(alloc: Global, bytes: &Bytes, due: &str) -> bool {
    match bytes.as_slice().strip_prefix(b"operator,kind,class,row\n") {
        Some(lines) => match file_of(alloc, due) {
            Some(file) => file.as_slice() == lines,
            None => false,
        },
        None => false,
    }
}

fn count_of(due: &str, head: usize) -> u64 {
    if due == "-" {
        0
    } else {
        (due.split(" / ").count() as u64).wrapping_sub(head as u64)
    }
}

// Whether a row's script gives what is due.
fn holds(alloc: Global, row: &str) -> Option<bool> {
    let (script, rest) = row.split_once("\n<\n")?;
    let (files, due) = rest.split_once("\n=\n")?;
    let mut due = due.lines();
    let (output, report) = (due.next()?, due.next()?);
    let interp = due.next()?.parse::<u64>().ok()?;
    let ran = run(alloc, script, files)?;
    Some(
        is_file(alloc, &ran.answer.output, output)
            && is_report(alloc, &ran.answer.report, report)
            && ran.answer.rows == count_of(output, 1)
            && ran.answer.reported == count_of(report, 0)
            && ran.interp == interp,
    )
}

#[test]
fn scripts_give_their_files(rt: HostRuntime) {
    let mut rows = 0usize;
    for row in rows::ROWS.split("\n> ").skip(1) {
        let (name, row) = row.split_once('\n').unwrap_or(("", ""));
        assert!(rt; holds(rt.alloc(), row) == Some(true), "{name}");
        rows = rows.wrapping_add(1);
    }
    assert!(rt; rows == rows::COUNT);
}

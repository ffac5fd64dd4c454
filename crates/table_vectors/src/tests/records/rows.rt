// Rows that are written again.
use super::files::{bytes_of, source_of};
use std::alloc::Global;
use tx_records::{CellError, CsvSource, Output, source, write_header, write_row};
use tx_text::{Bytes, NoMemory};
use tx_values::{Items, Names, Naming, Origin, Row, Value};

// A file for each line, `=`, and its header and good rows as they are written. The signs are those of the table of files.
// CPython's `csv.writer` has the same, but that it puts no quotes round a carriage return.
const COPIES: &str = "\
=
a,b=a,b/
~a/1=a/1/
a/1=a/1/
p;q?=p,q/
a,b/007,k/-0,k/+1,k/true,k/-5,k/,k/=a,b/007,k/-0,k/+1,k/true,k/-5,k/,k/
b,a/k,007/k,-0/k,+1/k,true/k,-5/k,/=b,a/k,007/k,-0/k,+1/k,true/k,-5/k,/
a,b,c/1,2,#/3,4,5/=a,b,c/3,4,5/
a,b,c/1,#/3,4,5/=a,b,c/3,4,5/
a/\"x,y\"/\"say \"\"a\"\"\"/\"x/y\"/True/False/=a/\"x,y\"/\"say \"\"a\"\"\"/\"x/y\"/True/False/
a/\"1\"/\"\"/x\"y/ 1 /=a/1/\"\"/\"x\"\"y\"/ 1 /
\"a,b\",/,/=\"a,b\",/,/
a,b^/\"x^y\",0^/=a,b/\"x^y\",0/";

// The header and all rows of a source.
fn copied(alloc: Global, source: &CsvSource) -> Result<Bytes, CellError> {
    let mut output = Output::new(alloc);
    output.add_header(&source.names)?;
    for at in 0..source.rows.len() {
        output.add_row(&source.rows.row(at)?)?;
    }
    Ok(output.into_bytes()?)
}

fn holds(alloc: Global, row: &str) -> Result<bool, CellError> {
    let (file, wanted) = row.split_once('=').unwrap_or(("", ""));
    let output = copied(alloc, &source_of(alloc, file)?)?;
    let wanted = bytes_of(alloc, wanted)?;
    Ok(output.as_slice() == wanted.as_slice())
}

#[test]
fn cells_are_copied_unchanged(rt: HostRuntime) {
    let mut rows = 0usize;
    for row in COPIES.lines() {
        assert!(rt; holds(rt.alloc(), row) == Ok(true), "{row}");
        rows = rows.wrapping_add(1);
    }
    assert!(rt; rows == 13);
}

const LAST: &[u8] = b"x y";

fn many_records(alloc: Global) -> Result<Bytes, NoMemory> {
    let mut file = Bytes::new(alloc);
    file.push_all(b"a,b\n")?;
    for _ in 0..100_000 {
        file.push_all(b"12,x y\n")?;
    }
    Ok(file)
}

fn many_are_copied(alloc: Global) -> Result<bool, CellError> {
    let file = many_records(alloc)?;
    let source = source(alloc, &file, &Naming { names: None }, 1)?;
    let output = copied(alloc, &source)?;
    let kept = source.rows.len() == 100_000 && source.rows.field(99_999, 1) == LAST;
    Ok(kept && output.as_slice() == file.as_slice())
}

#[test]
fn a_file_of_many_records(rt: HostRuntime) {
    assert!(rt; many_are_copied(rt.alloc()) == Ok(true));
}

// A row of one cell, or of none.
fn row_of(alloc: Global, cell: Option<Value>) -> Result<Row, NoMemory> {
    let mut cells = Items::new(alloc);
    if let Some(cell) = cell {
        cells.push(cell)?;
    }
    Ok(Row {
        cells,
        origin: Origin::new(alloc),
    })
}

fn line_of(alloc: Global, cell: Option<Value>) -> Result<Bytes, CellError> {
    write_row(alloc, &row_of(alloc, cell)?)
}

fn is_line(line: Result<Bytes, CellError>, wanted: &[u8]) -> bool {
    match line {
        Ok(line) => line.as_slice() == wanted,
        Err(_) => false,
    }
}

fn is_refused(line: Result<Bytes, CellError>) -> bool {
    matches!(line, Err(CellError::NotScalar))
}

#[test]
fn rows_are_lines(rt: HostRuntime) {
    let alloc = rt.alloc();
    assert!(rt; is_line(line_of(alloc, None), b""));
    assert!(rt; is_line(line_of(alloc, Some(Value::Nil)), b"\"\"\n"));
    assert!(rt; is_line(line_of(alloc, Some(Value::Truth(true))), b"True\n"));
    assert!(rt; is_line(line_of(alloc, Some(Value::Int(-7))), b"-7\n"));
    assert!(rt; is_refused(line_of(alloc, Some(Value::List(Items::new(alloc))))));
}

const HEADER: &[u8] = b"\"a,b\",\n";

fn headers_are_lines(alloc: Global) -> Result<bool, NoMemory> {
    let mut names = Names::new(alloc);
    let none = write_header(alloc, &names)?;
    names.push(bytes_of(alloc, "a,b")?)?;
    names.push(Bytes::new(alloc))?;
    let header = write_header(alloc, &names)?;
    Ok(none.is_empty() && header.as_slice() == HEADER)
}

fn add_cell(alloc: Global, output: &mut Output, cell: Value) -> Result<(), CellError> {
    output.add_row(&row_of(alloc, Some(cell))?)
}

const ONE_TWO: &[u8] = b"1\n2\n";

fn containers_change_nothing(alloc: Global) -> Result<bool, CellError> {
    let mut output = Output::new(alloc);
    add_cell(alloc, &mut output, Value::Int(1))?;
    let refused = add_cell(alloc, &mut output, Value::Tuple(Items::new(alloc)));
    add_cell(alloc, &mut output, Value::Int(2))?;
    let bytes = output.into_bytes()?;
    Ok(refused == Err(CellError::NotScalar) && bytes.as_slice() == ONE_TWO)
}

#[test]
fn outputs_have_headers_and_refuse_containers(rt: HostRuntime) {
    assert!(rt; headers_are_lines(rt.alloc()) == Ok(true));
    assert!(rt; containers_change_nothing(rt.alloc()) == Ok(true));
}

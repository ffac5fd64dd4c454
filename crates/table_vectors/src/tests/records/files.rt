// Files and what they give. The records are those of csv's rules; CPython's `csv.reader` has the same for each file here.
use itoa::Buffer;
use std::alloc::Global;
use tx_base::Class;
use tx_records::{CsvSource, RawRows, source};
use tx_report::Entry;
use tx_text::{Bytes, NoMemory};
use tx_values::{Names, Naming, Origin};

// A file for each line, and what it gives: `=`, a `;` and a name for each column, `=`, the good records, `=`, the faulty
// ones. A record is `|` and its number, and then a `;` and a field for each column of a good one, or R for RecordError
// and U for UnicodeDecodeError. `/` is a line feed, `^` a carriage return, `~` the UTF-8 mark, `#` the byte FF and `%`
// 1,048,576 letters. Names that the script gives stand in front of a `?`.
const FILES: &str = "\
===
///===
a,b=;a;b==
a,b/1,2/3,4/=;a;b=|1;1;2|2;3;4=
a,b/1,2/3,4=;a;b=|1;1;2|2;3;4=
a,b^/1,2^/3,4^/=;a;b=|1;1;2|2;3;4=
a^1^2=;a=|1;1|2;2=
//a//1///2//=;a=|1;1|2;2=
a/\"x\"\"y\"/=;a=|1;x\"y=
a/\"x/y/z\"/=;a=|1;x/y/z=
a/\"x,y=;a=|1;x,y=
a/x\"y/=;a=|1;x\"y=
a/\"x\"y/=;a=|1;xy=
a/\"\"/=;a=|1;=
a,b/,/=;a;b=|1;;=
a/ 1 /=;a=|1; 1 =
~a/1/=;a=|1;1=
~~a/1/=;~a=|1;1=
a,a/1,2/=;a;a=|1;1;2=
p;q?=;p;q==
p;q?1,2/3,4/=;p;q=|1;1;2|2;3;4=
p;q?~1,2/=;p;q=|1;1;2=
a,b/1/1,2,3/4,5/6/=;a;b=|3;4;5=|1R|2R|4R
a,b,c/1,2,#/3,4,5/=;a;b;c=|2;3;4;5=|1U
a,b,c/#,1,2/1,#,2/1,2,3/=;a;b;c=|3;1;2;3=|1U|2U
a,b,c/1,#/3,4,5/=;a;b;c=|2;3;4;5=|1R
#,b/1,2/=;#;b=|1;1;2=
a/%/x%/%#/#/=;a=|1;%=|2R|3R|4U
a,b/%,1/%x,1/1,x%/1,2/=;a;b=|1;%;1|4;1;2=|2R|3R";

fn push_many(bytes: &mut Bytes, byte: u8) -> Result<(), NoMemory> {
    let block = [byte; 1024];
    for _ in 0..1024 {
        bytes.push_all(block.as_slice())?;
    }
    Ok(())
}

// Adds the bytes of a sign of the table.
fn push_sign(bytes: &mut Bytes, sign: u8) -> Result<(), NoMemory> {
    match sign {
        b'/' => bytes.push(b'\n'),
        b'^' => bytes.push(b'\r'),
        b'~' => bytes.push_all(b"\xEF\xBB\xBF"),
        b'#' => bytes.push(b'\xFF'),
        b'%' => push_many(bytes, b'x'),
        other => bytes.push(other),
    }
}

// The bytes of a text of the table.
pub(super) fn bytes_of(alloc: Global, text: &str) -> Result<Bytes, NoMemory> {
    let mut bytes = Bytes::new(alloc);
    for sign in text.as_bytes() {
        push_sign(&mut bytes, *sign)?;
    }
    Ok(bytes)
}

fn naming_of(alloc: Global, text: &str) -> Result<Naming, NoMemory> {
    let mut names = Names::new(alloc);
    for name in text.split(';') {
        names.push(bytes_of(alloc, name)?)?;
    }
    Ok(Naming { names: Some(names) })
}

pub(super) fn source_of(alloc: Global, text: &str) -> Result<CsvSource, NoMemory> {
    match text.split_once('?') {
        Some((names, file)) => {
            let naming = naming_of(alloc, names)?;
            source(alloc, &bytes_of(alloc, file)?, &naming, 7)
        }
        None => source(alloc, &bytes_of(alloc, text)?, &Naming { names: None }, 7),
    }
}

// Adds a part behind its sign.
fn push_part(told: &mut Bytes, sign: &[u8], part: &[u8]) -> Result<(), NoMemory> {
    told.push_all(sign)?;
    told.push_all(part)
}

fn push_names(told: &mut Bytes, names: &Names) -> Result<(), NoMemory> {
    for name in names.as_slice() {
        push_part(told, b";", name.as_slice())?;
    }
    told.push(b'=')
}

// Adds the number of a record, if it is of operator 7.
fn push_number(told: &mut Bytes, origin: &Origin) -> Result<(), NoMemory> {
    match origin.as_slice() {
        [mark] if mark.operator == 7 => push_part(
            told,
            b"|",
            Buffer::new().format(mark.number).as_bytes(),
        ),
        _ => Ok(()),
    }
}

fn push_fields(told: &mut Bytes, rows: &RawRows, row: usize, width: usize) -> Result<(), NoMemory> {
    for column in 0..width {
        push_part(told, b";", rows.field(row, column))?;
    }
    Ok(())
}

fn push_row(told: &mut Bytes, rows: &RawRows, at: usize) -> Result<(), NoMemory> {
    if at < rows.len() {
        let row = rows.row(at)?;
        push_number(told, &row.origin)?;
        push_fields(told, rows, at, row.cells.len())?;
    }
    Ok(())
}

fn push_rows(told: &mut Bytes, rows: &RawRows) -> Result<(), NoMemory> {
    for at in 0..rows.len() {
        push_row(told, rows, at)?;
    }
    told.push(b'=')
}

fn letter_of(class: Class) -> u8 {
    match class {
        Class::RecordError => b'R',
        Class::UnicodeDecodeError => b'U',
        _ => b'?',
    }
}

fn push_faults(told: &mut Bytes, faults: &[Entry]) -> Result<(), NoMemory> {
    for fault in faults {
        push_number(told, &fault.origin)?;
        told.push(letter_of(fault.class))?;
    }
    Ok(())
}

// What a source gives, as the table writes it.
fn told_of(alloc: Global, source: &CsvSource) -> Result<Bytes, NoMemory> {
    let mut told = Bytes::new(alloc);
    push_names(&mut told, &source.names)?;
    push_rows(&mut told, &source.rows)?;
    push_faults(&mut told, source.faults.as_slice())?;
    Ok(told)
}

fn holds(alloc: Global, row: &str) -> Result<bool, NoMemory> {
    let (file, wanted) = row.split_once('=').unwrap_or(("", ""));
    let source = source_of(alloc, file)?;
    let told = told_of(alloc, &source)?;
    let wanted = bytes_of(alloc, wanted)?;
    Ok(told.as_slice() == wanted.as_slice())
}

#[test]
fn files_give_their_records(rt: HostRuntime) {
    let mut rows = 0usize;
    for row in FILES.lines() {
        assert!(rt; holds(rt.alloc(), row) == Ok(true), "{row}");
        rows = rows.wrapping_add(1);
    }
    assert!(rt; rows == 29);
}

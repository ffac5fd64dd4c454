// Fields and their values. The kinds are those of the cell rule, at its edges.
use std::alloc::Global;
use tx_records::{CellError, print_cell, read_cell};
use tx_text::{NoMemory, PyText, Utf8Fault};
use tx_values::{Items, Pairs, Value};

// A kind, a colon and a field for each line.
const CELLS: &str = "\
none:
truth:True
truth:False
text:true
text:True\u{20}
text: True
text:TRUE
text:None
int:0
int:7
int:-5
int:10
text:007
text:-0
text:+1
text:00
text:-007
text:--1
text:-
text:1.5
text:1\u{20}
text:1e3
text:1_000
int:9223372036854775807
int:9223372036854775808
int:-9223372036854775808
int:-9223372036854775809
int:170141183460469231731687303715884105727
text:170141183460469231731687303715884105728
int:-170141183460469231731687303715884105728
text:-170141183460469231731687303715884105729
text:99999999999999999999999999999999999999999999999
text:\u{663}
text:1\u{663}
text:h\u{e9}\u{20ac}\u{1F600}";

fn kind_of(value: &Value) -> &'static str {
    match value {
        Value::Nil => "none",
        Value::Truth(_) => "truth",
        Value::Int(_) => "int",
        Value::Text(_) => "text",
        _ => "container",
    }
}

fn is_printed(alloc: Global, value: &Value, field: &str) -> bool {
    match print_cell(alloc, value) {
        Ok(cell) => cell.as_str() == field,
        Err(_) => false,
    }
}

// Whether a field's value is of its kind, and is printed as the field.
fn holds(alloc: Global, row: &str) -> bool {
    let (kind, field) = row.split_once(':').unwrap_or(("", ""));
    match read_cell(alloc, field.as_bytes()) {
        Ok(value) => kind_of(&value) == kind && is_printed(alloc, &value, field),
        Err(_) => false,
    }
}

#[test]
fn cells_are_read_and_printed(rt: HostRuntime) {
    let mut rows = 0usize;
    for row in CELLS.lines() {
        assert!(rt; holds(rt.alloc(), row), "{row}");
        rows = rows.wrapping_add(1);
    }
    assert!(rt; rows == 35);
}

fn has_no_cell(alloc: Global, value: &Value) -> bool {
    matches!(print_cell(alloc, value), Err(CellError::NotScalar))
}

// Whether a list of one text has no cell, though the text has one.
fn lists_have_none(alloc: Global) -> Result<bool, NoMemory> {
    let mut items = Items::new(alloc);
    items.push(Value::Text(PyText::from_str(alloc, "a")?))?;
    Ok(has_no_cell(alloc, &Value::List(items)))
}

fn is_no_text(alloc: Global, field: &[u8]) -> bool {
    matches!(read_cell(alloc, field), Err(Utf8Fault::NotUtf8))
}

#[test]
fn bytes_that_are_no_text_and_containers_have_no_cell(rt: HostRuntime) {
    let alloc = rt.alloc();
    assert!(rt; is_no_text(alloc, b"a\xFF"));
    assert!(rt; is_no_text(alloc, b"1\xC3"));
    assert!(rt; lists_have_none(alloc) == Ok(true));
    assert!(rt; has_no_cell(alloc, &Value::Tuple(Items::new(alloc))));
    assert!(rt; has_no_cell(alloc, &Value::Dict(Pairs::new(alloc))));
}

// Joins and `unique` over tables of plain text. Rows stand between ` / `, their cells between commas: an empty cell is None,
// `(a:b)` a tuple of such cells, `[]` a list, and what follows a quote a text whatever it looks like. The left rows of a join
// are those of operator 2, the right ones of operator 1. A row of an answer is printed with its origin behind an `@`, its
// texts without a quote. What is expected follows from the definition, by hand. Columns are numbers here, so columns of one
// name on both sides are columns with the same cells.
mod large;

use std::alloc::Global;
use tx_joins::{FirstPlaces, Joined, join, unique};
use tx_text::{NoMemory, PyText};
use tx_values::{Items, Mark, Origin, Origins, Row, Rows, Value, key_of};

/// The cell at a place of a row of a table; empty where it has fewer.
fn part(row: &str, at: usize) -> &str {
    row.split(" | ").nth(at).unwrap_or("")
}

fn number_or_text(alloc: Global, text: &str) -> Result<Value, NoMemory> {
    match text.parse::<i128>() {
        Ok(number) => Ok(Value::Int(number)),
        Err(_) => Ok(Value::Text(PyText::from_str(alloc, text.trim_start_matches('\''))?)),
    }
}

fn scalar(alloc: Global, text: &str) -> Result<Value, NoMemory> {
    match text {
        "" => Ok(Value::Nil),
        "True" => Ok(Value::Truth(true)),
        "False" => Ok(Value::Truth(false)),
        "[]" => Ok(Value::List(Items::new(alloc))),
        _ => number_or_text(alloc, text),
    }
}

fn scalars(alloc: Global, text: &str, end: char) -> Result<Items, NoMemory> {
    let mut items = Items::new(alloc);
    for item in text.trim_end_matches(end).split(':') {
        items.push(scalar(alloc, item)?)?;
    }
    Ok(items)
}

fn value_of(alloc: Global, text: &str) -> Result<Value, NoMemory> {
    match text.strip_prefix('(') {
        Some(items) => Ok(Value::Tuple(scalars(alloc, items, ')')?)),
        None => scalar(alloc, text),
    }
}

fn cells_of(alloc: Global, text: &str) -> Result<Items, NoMemory> {
    let mut cells = Items::new(alloc);
    for cell in text.split(',') {
        cells.push(value_of(alloc, cell)?)?;
    }
    Ok(cells)
}

/// The origin of a record of a source.
fn origin_of(alloc: Global, operator: u32, number: u32) -> Result<Origin, NoMemory> {
    let mut origin = Origin::new(alloc);
    origin.push(Mark { operator, number })?;
    Ok(origin)
}

fn push_row(alloc: Global, rows: &mut Rows, text: &str, operator: u32) -> Result<(), NoMemory> {
    let number = (rows.len() as u32).wrapping_add(1);
    let cells = cells_of(alloc, text)?;
    let origin = origin_of(alloc, operator, number)?;
    rows.push(Row { cells, origin })
}

fn rows_of(alloc: Global, text: &str, operator: u32) -> Result<Rows, NoMemory> {
    let mut rows = Rows::new(alloc);
    if text == "-" {
        return Ok(rows);
    }
    for row in text.split(" / ") {
        push_row(alloc, &mut rows, row, operator)?;
    }
    Ok(rows)
}

fn print_number(alloc: Global, text: &mut PyText, number: i128) -> Result<(), NoMemory> {
    let written = format!(in alloc; "{number}")?;
    text.push_str(written.as_str())
}

fn print_value(alloc: Global, text: &mut PyText, value: &Value) -> Result<(), NoMemory> {
    match value {
        Value::Nil => Ok(()),
        Value::Truth(true) => text.push_str("True"),
        Value::Truth(false) => text.push_str("False"),
        Value::Int(number) => print_number(alloc, text, *number),
        Value::Text(characters) => text.push_str(characters.as_str()),
        Value::Tuple(_) => text.push_str("()"),
        Value::List(_) => text.push_str("[]"),
        Value::Dict(_) => text.push_str("{}"),
    }
}

fn print_mark(alloc: Global, text: &mut PyText, mark: Mark) -> Result<(), NoMemory> {
    print_number(alloc, text, i128::from(mark.operator))?;
    text.push(':')?;
    print_number(alloc, text, i128::from(mark.number))
}

fn print_origin(alloc: Global, text: &mut PyText, marks: &[Mark]) -> Result<(), NoMemory> {
    let mut separator = "";
    for mark in marks {
        text.push_str(separator)?;
        print_mark(alloc, text, *mark)?;
        separator = "+";
    }
    Ok(())
}

fn print_cells(alloc: Global, text: &mut PyText, cells: &[Value]) -> Result<(), NoMemory> {
    let mut separator = "";
    for cell in cells {
        text.push_str(separator)?;
        print_value(alloc, text, cell)?;
        separator = ",";
    }
    Ok(())
}

fn print_rows(alloc: Global, text: &mut PyText, rows: &[Row]) -> Result<(), NoMemory> {
    let mut separator = "";
    for row in rows {
        text.push_str(separator)?;
        print_cells(alloc, text, row.cells.as_slice())?;
        text.push('@')?;
        print_origin(alloc, text, row.origin.as_slice())?;
        separator = " / ";
    }
    Ok(())
}

fn print_origins(alloc: Global, text: &mut PyText, origins: &Origins) -> Result<(), NoMemory> {
    for origin in origins.as_slice() {
        text.push(' ')?;
        print_origin(alloc, text, origin.as_slice())?;
    }
    Ok(())
}

/// The rows of an answer, and behind ` #` the origins of those that took no part.
fn printed(alloc: Global, joined: &Joined) -> Result<PyText, NoMemory> {
    let mut text = PyText::new(alloc);
    print_rows(alloc, &mut text, joined.rows.as_slice())?;
    text.push_str(" #")?;
    print_origins(alloc, &mut text, &joined.unhashable)?;
    Ok(text)
}

// Left rows, right rows, the two keys and the width in three digits; the join, and then the left join.
const JOINS: &str = "\
1,7 / 2, / 3,9 | 7,p / ,q / 7,r | 102 | 1,7,p@2:1+1:1 / 1,7,r@2:1+1:3 / 2,,q@2:2+1:2 # | 1,7,p@2:1+1:1 / 1,7,r@2:1+1:3 / 2,,q@2:2+1:2 / 3,9,@2:3 #
1 / True / 0 | 1,a / True,b / False,c | 002 | 1,a@2:1+1:1 / 1,b@2:1+1:2 / True,a@2:2+1:1 / True,b@2:2+1:2 / 0,c@2:3+1:3 # | 1,a@2:1+1:1 / 1,b@2:1+1:2 / True,a@2:2+1:1 / True,b@2:2+1:2 / 0,c@2:3+1:3 #
k / [] / j | k,1 / [],2 / j,3 | 002 | k,1@2:1+1:1 / j,3@2:3+1:3 # 2:2 1:2 | k,1@2:1+1:1 / j,3@2:3+1:3 # 2:2 1:2
(1:x) / (1:[]) / (1) | (True:x),a / (1:[]),b / ([]),c | 002 | (),a@2:1+1:1 # 2:2 1:2 1:3 | (),a@2:1+1:1 / (),@2:3 # 2:2 1:2 1:3
- | 7,p | 002 |  # |  #
1,a / 2,b | - | 003 |  # | 1,a,,@2:1 / 2,b,,@2:2 #
a | a | 001 | a@2:1+1:1 # | a@2:1+1:1 #
x | y | 001 |  # | x@2:1 #
1,k | p,k,q / r,k,s | 113 | 1,k,p,q@2:1+1:1 / 1,k,r,s@2:1+1:2 # | 1,k,p,q@2:1+1:1 / 1,k,r,s@2:1+1:2 #
1 / '1 / '01 / 'True / ' | '01,a / 'True,b / '1,c / 1,d / ,e / ',f | 002 | 1,d@2:1+1:4 / 1,c@2:2+1:3 / 01,a@2:3+1:1 / True,b@2:4+1:2 / ,f@2:5+1:6 # | 1,d@2:1+1:4 / 1,c@2:2+1:3 / 01,a@2:3+1:1 / True,b@2:4+1:2 / ,f@2:5+1:6 #
x7,1 / x,2 | 1,x7 / 2,x | 012 | x7,1,1@2:1+1:1 / x,2,2@2:2+1:2 # | x7,1,1@2:1+1:1 / x,2,2@2:2+1:2 #
";

// The digit at a place of a text.
fn digit(text: &str, at: usize) -> usize {
    let digits = text.as_bytes();
    match digits.get(at) {
        Some(digit) => usize::from(digit.wrapping_sub(b'0')),
        None => 0,
    }
}

fn joined(alloc: Global, row: &str, keep: bool) -> Result<PyText, NoMemory> {
    let left = rows_of(alloc, part(row, 0), 2)?;
    let right = rows_of(alloc, part(row, 1), 1)?;
    let shape = part(row, 2);
    let answer = join(
        alloc,
        &left,
        &right,
        digit(shape, 0),
        digit(shape, 1),
        keep,
        digit(shape, 2),
    )?;
    printed(alloc, &answer)
}

fn joins(alloc: Global, row: &str) -> Result<bool, NoMemory> {
    let inner = joined(alloc, row, false)?;
    let left = joined(alloc, row, true)?;
    Ok(inner.as_str() == part(row, 3) && left.as_str() == part(row, 4))
}

#[test]
fn rows_with_equal_keys_are_joined(rt: HostRuntime) {
    let mut rows = 0usize;
    for row in JOINS.lines() {
        assert!(rt; joins(rt.alloc(), row) == Ok(true), "{row}");
        rows = rows.wrapping_add(1);
    }
    assert!(rt; rows == 11);
}

// Rows, and those that are equal to none ahead.
const FIRSTS: &str = "\
True / 1 / 0 / False | True@1:1 / 0@1:3 #
1,a / 1,b / True,a / 2,a / 1,b | 1,a@1:1 / 1,b@1:2 / 2,a@1:4 #
,x / ,x / x, / , | ,x@1:1 / x,@1:3 / ,@1:4 #
1,[] / 1,2 / [],2 / 1,2 | 1,2@1:2 # 1:1 1:3
(1:x),1 / (True:x),True / (1:[]),1 | (),1@1:1 # 1:3
a:b / a / a:b | a:b@1:1 / a@1:2 #
1 / '1 / True / 'True / ',x / ,x / '1 | 1@1:1 / 1@1:2 / True@1:4 / ,x@1:5 / ,x@1:6 #
- |  #
";

fn firsts(alloc: Global, row: &str) -> Result<bool, NoMemory> {
    let rows = rows_of(alloc, part(row, 0), 1)?;
    let answer = unique(alloc, &rows)?;
    let text = printed(alloc, &answer)?;
    Ok(text.as_str() == part(row, 1))
}

#[test]
fn the_first_of_equal_rows_stays(rt: HostRuntime) {
    let mut rows = 0usize;
    for row in FIRSTS.lines() {
        assert!(rt; firsts(rt.alloc(), row) == Ok(true), "{row}");
        rows = rows.wrapping_add(1);
    }
    assert!(rt; rows == 8);
}

// Sees a cell's key at a place; its number and whether it is new, or none where it has no key.
fn sees(
    alloc: Global,
    seen: &mut FirstPlaces,
    text: &str,
    place: u32,
) -> Result<Option<(usize, bool)>, NoMemory> {
    let value = value_of(alloc, text)?;
    match key_of(alloc, &value) {
        Ok(key) => Ok(Some(seen.see(key, place)?)),
        Err(_) => Ok(None),
    }
}

fn keys_are_numbered(alloc: Global) -> Result<bool, NoMemory> {
    let mut seen = FirstPlaces::new(alloc);
    let first = sees(alloc, &mut seen, "b", 4)? == Some((0, true));
    let second = sees(alloc, &mut seen, "1", 5)? == Some((1, true));
    let again = sees(alloc, &mut seen, "True", 6)? == Some((1, false));
    let places = seen.place(0) == Some(4) && seen.place(1) == Some(5) && seen.place(2) == None;
    Ok(first && second && again && places && seen.len() == 2)
}

#[test]
fn keys_have_numbers_in_the_order_of_their_first_places(rt: HostRuntime) {
    assert!(rt; keys_are_numbered(rt.alloc()) == Ok(true));
}

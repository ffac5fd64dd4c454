use crate::tests::written::value_of;
use std::alloc::Global;
use std::process::Abort;
use tx_text::Bytes;
use tx_values::{
    Items, Mark, Names, Naming, Origin, Origins, Row, RowLists, Rows, Value, copy_row, equal,
    key_of_items,
};

const LEFT: Mark = Mark {
    operator: 1,
    number: 3,
};

const RIGHT: Mark = Mark {
    operator: 2,
    number: 4_294_967_295,
};

fn put(rt: &impl Abort, origin: &mut Origin, mark: Mark) {
    origin.push(mark).expect(rt, "memory");
}

fn joined_origin(rt: &impl Abort, alloc: Global) -> Origin {
    let mut origin = Origin::new(alloc);
    put(rt, &mut origin, LEFT);
    put(rt, &mut origin, RIGHT);
    put(rt, &mut origin, LEFT);
    origin
}

// The items of a list.
fn cells_of(rt: &impl Abort, alloc: Global, text: &str) -> Items {
    match value_of(rt, alloc, text) {
        Value::List(items) => items,
        _ => Items::new(alloc),
    }
}

fn joined_row(rt: &impl Abort, alloc: Global) -> Row {
    Row {
        cells: cells_of(rt, alloc, "[ [ ( 'a' , 7 ) , None ] , None ]"),
        origin: joined_origin(rt, alloc),
    }
}

// Whether two rows have equal cells and the same origin.
fn same_rows(a: &Row, b: &Row) -> bool {
    a.cells.len() == b.cells.len()
        && a.origin.as_slice() == b.origin.as_slice()
        && a.cells
            .as_slice()
            .iter()
            .zip(b.cells.as_slice())
            .all(|(x, y)| equal(x, y))
}

// Whether a row is the joined one, and its origin has the three marks.
fn is_joined(row: &Row, joined: &Row) -> bool {
    let origin = &row.origin;
    same_rows(row, joined)
        && origin.as_slice() == [LEFT, RIGHT, LEFT].as_slice()
        && origin.len() == 3
        && origin.get(1) == Some(&RIGHT)
        && origin.get(3).is_none()
}

fn push_copy(rt: &impl Abort, alloc: Global, rows: &mut Rows, row: &Row) {
    let copied = copy_row(alloc, row).expect(rt, "memory");
    rows.push(copied).expect(rt, "memory");
}

// Whether a list of two rows has these two and no third.
fn has_two(rows: &Rows, row: &Row) -> bool {
    let all = rows.as_slice().iter().all(|kept| is_joined(kept, row));
    all && rows.len() == 2 && rows.get(2).is_none()
}

#[test]
fn rows_keep_cells_and_origins(rt: HostRuntime) {
    let row = joined_row(&rt, rt.alloc());
    let mut rows = Rows::new(rt.alloc());
    push_copy(&rt, rt.alloc(), &mut rows, &row);
    push_copy(&rt, rt.alloc(), &mut rows, &row);
    assert!(rt; has_two(&rows, &row));
}

const MANY: u32 = 100_000;

fn mark(number: u32) -> Mark {
    Mark {
        operator: 1,
        number,
    }
}

fn numbered_row(rt: &impl Abort, alloc: Global, number: u32) -> Row {
    let mut origin = Origin::new(alloc);
    put(rt, &mut origin, mark(number));
    let mut cells = Items::new(alloc);
    cells
        .push(Value::Int(i128::from(number)))
        .expect(rt, "memory");
    Row { cells, origin }
}

fn numbered_rows(rt: &impl Abort, alloc: Global, count: u32) -> Rows {
    let mut rows = Rows::new(alloc);
    for number in 0..count {
        rows.push(numbered_row(rt, alloc, number))
            .expect(rt, "memory");
    }
    rows
}

// Whether a row has the cell and the mark of this number, and its cells a key.
fn is_numbered(alloc: Global, row: &Row, number: u32) -> bool {
    let cells = row.cells.as_slice();
    let cell = Value::Int(i128::from(number));
    row.origin.as_slice() == [mark(number)].as_slice()
        && cells.first().is_some_and(|first| equal(first, &cell))
        && key_of_items(alloc, cells).is_ok()
}

// How many of the rows have their places' numbers, from the first on.
fn numbered_from_the_first(alloc: Global, rows: &Rows) -> u32 {
    let mut number = 0u32;
    for row in rows.as_slice() {
        if !is_numbered(alloc, row, number) {
            return number;
        }
        number = number.wrapping_add(1);
    }
    number
}

#[test]
fn many_rows_are_kept_in_order(rt: HostRuntime) {
    let rows = numbered_rows(&rt, rt.alloc(), MANY);
    assert!(rt; numbered_from_the_first(rt.alloc(), &rows) == MANY);
}

fn rows_lie_in_a_list(rt: &impl Abort, alloc: Global) -> bool {
    let mut lists = RowLists::new(alloc);
    lists.push(Rows::new(alloc)).expect(rt, "memory");
    lists.len() == 1
}

fn origins_lie_in_a_list(rt: &impl Abort, alloc: Global) -> bool {
    let mut origins = Origins::new(alloc);
    origins.push(Origin::new(alloc)).expect(rt, "memory");
    origins.len() == 1
}

fn names_lie_in_a_list(rt: &impl Abort, alloc: Global) -> bool {
    let mut names = Names::new(alloc);
    names.push(Bytes::new(alloc)).expect(rt, "memory");
    let naming = Naming { names: Some(names) };
    naming.names.is_some_and(|names| names.len() == 1)
}

#[test]
fn rows_origins_and_names_lie_in_lists(rt: HostRuntime) {
    assert!(rt; rows_lie_in_a_list(&rt, rt.alloc()));
    assert!(rt; origins_lie_in_a_list(&rt, rt.alloc()));
    assert!(rt; names_lie_in_a_list(&rt, rt.alloc()));
}

// Joins and `unique` over many rows.
use super::origin_of;
use std::alloc::Global;
use tx_joins::{join, unique};
use tx_text::NoMemory;
use tx_values::{Items, Row, Rows, Value};

const MANY: u32 = 100_000;

fn row_of(alloc: Global, number: u32, cells: &[u32]) -> Result<Row, NoMemory> {
    let mut items = Items::new(alloc);
    for cell in cells {
        items.push(Value::Int(i128::from(*cell)))?;
    }
    let origin = origin_of(alloc, 1, number)?;
    Ok(Row {
        cells: items,
        origin,
    })
}

// Rows of one cell, which counts from 1.
fn rising(alloc: Global, many: u32) -> Result<Rows, NoMemory> {
    let mut rows = Rows::new(alloc);
    for number in 0..many {
        rows.push(row_of(alloc, number, &[number.wrapping_add(1)])?)?;
    }
    Ok(rows)
}

// Rows of two cells, which both count down to 1.
fn falling(alloc: Global, many: u32) -> Result<Rows, NoMemory> {
    let mut rows = Rows::new(alloc);
    for number in 0..many {
        let back = many.wrapping_sub(number);
        rows.push(row_of(alloc, number, &[back, back])?)?;
    }
    Ok(rows)
}

fn holds(row: &Row, column: usize, number: i128) -> bool {
    match row.cells.get(column) {
        Some(Value::Int(found)) => *found == number,
        _ => false,
    }
}

// Whether the rows are so many, each with its number from 1 on in both cells.
fn are_doubled(rows: &Rows, many: usize) -> bool {
    let mut number = 0i128;
    for row in rows.as_slice() {
        number = number.wrapping_add(1);
        if !holds(row, 0, number) || !holds(row, 1, number) {
            return false;
        }
    }
    rows.len() == many
}

// Each left row meets the one right row with its number, wherever that stands.
fn many_are_joined(alloc: Global, many: u32) -> Result<bool, NoMemory> {
    let left = rising(alloc, many)?;
    let right = falling(alloc, many)?;
    let answer = join(alloc, &left, &right, 0, 0, false, 2)?;
    Ok(are_doubled(&answer.rows, many as usize) && answer.unhashable.len() == 0)
}

// Rows whose first cells are all the same, and whose second ones go round from 0 to 999.
fn alike(alloc: Global) -> Result<Rows, NoMemory> {
    let mut rows = Rows::new(alloc);
    for number in 0..MANY {
        rows.push(row_of(alloc, number, &[5, number % 1000])?)?;
    }
    Ok(rows)
}

// The first row of each second cell stays.
fn few_are_first(alloc: Global) -> Result<bool, NoMemory> {
    let rows = alike(alloc)?;
    let answer = unique(alloc, &rows)?;
    let ends = match answer.rows.get(999) {
        Some(last) => holds(last, 1, 999),
        None => false,
    };
    Ok(ends && answer.rows.len() == 1000)
}

#[test]
fn many_rows_are_joined(rt: HostRuntime) {
    for many in [30_000, MANY] {
        assert!(rt; many_are_joined(rt.alloc(), many) == Ok(true), "{many}");
    }
}

#[test]
fn many_rows_have_their_firsts(rt: HostRuntime) {
    assert!(rt; few_are_first(rt.alloc()) == Ok(true));
}

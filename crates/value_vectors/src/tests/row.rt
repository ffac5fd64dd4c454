// Rows of values: `LEFT ; WORD ; RIGHT`, where the word says what a row is about.
use crate::tests::keys::{has_key, keys_agree};
use crate::tests::limits::measures;
use crate::tests::lookup::is_found;
use crate::tests::order::is_ordered;
use crate::tests::same::{counts_as, is_compared};
use crate::tests::written::{cell, value_at};
use std::alloc::Global;
use std::process::Abort;

// Whether a row holds.
fn holds(rt: &impl Abort, alloc: Global, row: &str) -> bool {
    let left = value_at(rt, alloc, row, 0);
    let right = value_at(rt, alloc, row, 2);
    match cell(row, 1) {
        "==" => is_compared(rt, alloc, &left, &right, true),
        "!=" => is_compared(rt, alloc, &left, &right, false),
        "<" | ">=" | "raises" => is_ordered(&left, cell(row, 1), &right),
        "one key" => keys_agree(rt, alloc, &left, &right, true),
        "two keys" => keys_agree(rt, alloc, &left, &right, false),
        "bool" => counts_as(&left, cell(row, 2)),
        "hash" => has_key(alloc, &left, cell(row, 2)),
        "weight, depth" => measures(&left, cell(row, 2), cell(row, 3)),
        "at" => is_found(rt, alloc, &left, &right, cell(row, 3)),
        _ => false,
    }
}

/// Asserts that each row of a table holds, and that there are so many.
pub(crate) fn each_row_holds(rt: &impl Abort, alloc: Global, table: &str, rows: usize) {
    let mut tried = 0usize;
    for row in table.lines() {
        assert!(rt; holds(rt, alloc, row), "{row}");
        tried = tried.wrapping_add(1);
    }
    assert!(rt; tried == rows, "{tried} rows");
}

// A table of functions, each with the number of its slots and its columns, or with its fault; a table of calls with their answers;
// and defs that call each other.
mod answer;
mod bindings;
mod calls;
mod deep;
mod due;
mod given;
mod read;

use crate::tests::answer::is_answer;
use crate::tests::due::is_due;
use crate::tests::given::answered;
use crate::tests::read::{add_def, bound, earlier};
use std::alloc::Global;
use tx_names::{Defs, Role};

fn role_of(word: &str) -> Role {
    match word {
        "r" => Role::OfRow,
        "a" => Role::OfAccRow,
        "v" => Role::Plain(1),
        _ => Role::Plain(word.parse::<u32>().unwrap_or(0)),
    }
}

// Whether binding answers what a row says: a line with the role and the answer, and behind it the function.
fn is_bound(alloc: Global, row: &str, defs: &Defs) -> bool {
    let Some((head, text)) = row.split_once('\n') else {
        return false;
    };
    let Some((role, answer)) = head.split_once(" ; ") else {
        return false;
    };
    let role = role_of(role);
    is_answer(&bound(alloc, text, role, defs), role, answer)
}

#[test]
fn functions_are_bound(rt: HostRuntime) {
    let mut rows = 0usize;
    if let Some(defs) = earlier(rt.alloc()) {
        for row in bindings::ROWS.split("\n> ").skip(1) {
            assert!(rt; is_bound(rt.alloc(), row, &defs), "{row}");
            rows = rows.wrapping_add(1);
        }
    }
    assert!(rt; rows == bindings::COUNT);
}

// The earlier defs of the table of calls.
fn earlier_defs(alloc: Global) -> Option<Defs> {
    let mut defs = Defs::new(alloc);
    for row in calls::EARLIER.split("\n> ").skip(1) {
        let (head, text) = row.split_once('\n')?;
        let (name, role) = head.split_once(" ; ")?;
        add_def(alloc, &mut defs, name, role_of(role), text)?;
    }
    Some(defs)
}

// Whether a call answers what a row says: a line with the role, the argument and the answer, and behind it the function.
fn is_called(alloc: Global, row: &str, defs: &Defs) -> bool {
    let Some((head, text)) = row.split_once('\n') else {
        return false;
    };
    let mut words = head.split(" ; ");
    let (Some(role), Some(argument), Some(due)) = (words.next(), words.next(), words.next()) else {
        return false;
    };
    let role = role_of(role);
    match bound(alloc, text, role, defs) {
        Ok(function) => is_due(alloc, &answered(alloc, &function, role, argument), due),
        Err(_) => false,
    }
}

#[test]
fn calls_give_what_python_gives(rt: HostRuntime) {
    let mut rows = 0usize;
    if let Some(defs) = earlier_defs(rt.alloc()) {
        for row in calls::ROWS.split("\n> ").skip(1) {
            assert!(rt; is_called(rt.alloc(), row, &defs), "{row}");
            rows = rows.wrapping_add(1);
        }
    }
    assert!(rt; rows == calls::COUNT);
}

#[test]
fn the_stack_is_enough(rt: HostRuntime) {
    let mut rows = 0usize;
    for row in deep::NESTS.lines().skip(1) {
        assert!(rt; deep::holds(rt.alloc(), row), "{row}");
        rows = rows.wrapping_add(1);
    }
    assert!(rt; rows == deep::COUNT);
}

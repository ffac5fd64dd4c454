// What a row says of a function.
use tx_names::{BindError, Bound, Role, copy};
use tx_text::Texts;

// Whether the columns are these, between commas.
fn are_columns(columns: &Texts, wanted: &str) -> bool {
    let mut at = 0usize;
    for name in wanted.split(',') {
        if name.is_empty() {
            continue;
        }
        match columns.get(at) {
            Some(column) => {
                if column.as_str() != name {
                    return false;
                }
            }
            None => return false,
        }
        at = at.wrapping_add(1);
    }
    columns.len() == at
}

// The word of an answer at a place.
fn word(answer: &str, at: usize) -> &str {
    answer.split(' ').nth(at).unwrap_or("")
}

fn is_function(function: &Bound, role: Role, answer: &str) -> bool {
    word(answer, 0) == "ok"
        && function.role() == role
        && word(answer, 1).parse::<usize>().ok() == Some(function.slots())
        && are_columns(function.columns(), word(answer, 2))
}

fn is_fault(kind: &str, line: u32, answer: &str) -> bool {
    word(answer, 0) == kind && word(answer, 1).parse::<u32>().ok() == Some(line)
}

fn is_copied(function: &Bound, role: Role, answer: &str) -> bool {
    match copy(function) {
        Ok(copied) => is_function(&copied, role, answer),
        Err(_) => false,
    }
}

/// Whether binding gave this function, whose copy is the same, or this fault.
pub(crate) fn is_answer(given: &Result<Bound, BindError>, role: Role, answer: &str) -> bool {
    match given {
        Ok(function) => is_function(function, role, answer) && is_copied(function, role, answer),
        Err(BindError::Unknown { line }) => is_fault("Unknown", *line, answer),
        Err(BindError::Arity { line }) => is_fault("Arity", *line, answer),
        Err(BindError::Recursive { line }) => is_fault("Recursive", *line, answer),
        Err(BindError::RowUse { line }) => is_fault("RowUse", *line, answer),
        Err(BindError::NoMemory) => false,
    }
}

// Rows of the tables: cells with `;` between them, a method first. In a cell `¶` stands for a line feed, and `~` for none.
ghost use Rattle.std.specs.Prelude.{◌≡◌, ◌∷◌, []};

use crate::tests::added::added_holds;
use crate::tests::ends::end_holds;
use crate::tests::made::made_holds;
use crate::tests::parts::part_holds;
use crate::tests::pieces::pieces_hold;
use crate::tests::searches::number_holds;
use crate::tests::truths::truth_holds;
use std::alloc::Global;
use std::process::Abort;
use tx_text::PyText;

/// The cell of a row at a place, empty where the row has fewer.
pub(crate) fn cell(row: &str, at: usize) -> &str {
    row.split(';').nth(at).unwrap_or("")
}

/// The number that a cell writes.
pub(crate) fn number(cell: &str) -> Option<usize> {
    cell.parse::<usize>().ok()
}

/// The text of a cell.
pub(crate) fn own(rt: &impl Abort, alloc: Global, cell: &str) -> PyText {
    let mut lines = cell.split('¶');
    let mut text = PyText::from_str(alloc, lines.next().unwrap_or("")).expect(rt, "memory");
    for line in lines {
        text.push('\n').expect(rt, "memory");
        text.push_str(line).expect(rt, "memory");
    }
    text
}

/// The text of one character.
pub(crate) fn letter(rt: &impl Abort, alloc: Global, c: char) -> PyText
    ensures { result ≡ c ∷ [] }
{
    let mut text = PyText::new(alloc);
    text.push(c).expect(rt, "memory");
    text
}

/// Whether a text is that of a cell.
pub(crate) fn is(rt: &impl Abort, alloc: Global, text: &PyText, cell: &str) -> bool {
    text.as_str() == own(rt, alloc, cell).as_str()
}

// Whether a row holds.
fn holds(rt: &impl Abort, alloc: Global, row: &str) -> bool {
    let text = own(rt, alloc, cell(row, 1));
    let other = own(rt, alloc, cell(row, 2));
    match cell(row, 0) {
        "len" | "find" | "rfind" | "count" => number_holds(&text, &other, row),
        "less" | "equal" | "is_digit" => truth_holds(&text, &other, row),
        "split_on" | "split_blank" => pieces_hold(rt, alloc, &text, &other, row),
        "strip" | "lstrip" | "rstrip" => end_holds(rt, alloc, &text, &other, row),
        "upper" | "lower" | "slice" | "char_at" => part_holds(rt, alloc, &text, row),
        "added" => added_holds(rt, alloc, row),
        "concat" | "repeat" | "join" | "zfill" | "replace" => {
            made_holds(rt, alloc, &text, &other, row)
        }
        _ => false,
    }
}

/// Asserts that each row of a table holds, and that there are so many.
pub(crate) fn each_row_holds(rt: &impl Abort, alloc: Global, table: &str, rows: usize) {
    let mut tried = 0usize;
    for row in table.lines() {
        assert!(rt; holds(rt, alloc, row), "{row}");
        tried = tried.wrapping_add(1);
    }
    assert!(rt; tried == rows, "{tried} rows");
}

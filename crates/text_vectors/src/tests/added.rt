// What is added at the end of a text: within the 24 bytes that stand in the value, up to them, and past them.
use crate::tests::row::{cell, each_row_holds, number};
use std::alloc::Global;
use std::process::Abort;
use tx_text::PyText;

/// The word `added`, a text, one that is added at its end, both together, and how many characters those are.
const ROWS: &str = "\
added;;;;0
added;;a;a;1
added;aß;€;aß€;3
added;aß€;é!;aß€é!;5
added;a;;a;1
added;abcdefghijklmnopqrstuvw;x;abcdefghijklmnopqrstuvwx;24
added;abcdefghijklmnopqrstuvw;xy;abcdefghijklmnopqrstuvwxy;25
added;abcdefghijklmnopqrstuvw;ß;abcdefghijklmnopqrstuvwß;24
added;abcdefghijklmnopqrstuvwx;;abcdefghijklmnopqrstuvwx;24
added;abcdefghijklmnopqrstuvwx;€;abcdefghijklmnopqrstuvwx€;25
added;abcdefghijklmnopqrstuvwxy;ßz;abcdefghijklmnopqrstuvwxyßz;27
added;€€€€€€€€;;€€€€€€€€;8
added;€€€€€€€€;€;€€€€€€€€€;9
added;;€€€€€€€€€€;€€€€€€€€€€;10
";

// Whether a text that is made a character at a time is equal to the text of its bytes, and to no longer one.
fn is_pushed(rt: &impl Abort, alloc: Global, wanted: &str) -> bool {
    let mut text = PyText::new(alloc);
    for c in wanted.chars() {
        text.push(c).expect(rt, "memory");
    }
    let whole = PyText::from_utf8(alloc, wanted.as_bytes()).expect(rt, "a text");
    let same = text.equal(&whole);
    text.push('!').expect(rt, "memory");
    same && !text.equal(&whole)
}

/// Whether a text has what was added, as a whole and a character at a time.
pub(crate) fn added_holds(rt: &impl Abort, alloc: Global, row: &str) -> bool {
    let mut text = PyText::from_str(alloc, cell(row, 1)).expect(rt, "memory");
    text.push_str(cell(row, 2)).expect(rt, "memory");
    let whole = cell(row, 3);
    is_pushed(rt, alloc, whole)
        && text.as_str() == whole
        && Some(text.len()) == number(cell(row, 4))
}

#[test]
fn added_texts_hold(rt: HostRuntime) {
    each_row_holds(&rt, rt.alloc(), ROWS, 14);
}

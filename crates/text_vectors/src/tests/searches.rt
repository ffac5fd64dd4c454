// Lengths, first and last places, and how often a part stands in a text.
use crate::tests::row::{cell, each_row_holds, number};
use tx_text::PyText;

/// A method, a text, a part of it, and the number.
const ROWS: &str = "\
len;;;0
len;aß€\u{1F600};;4
len;e\u{301};;2
find;ab;;0
find;;;0
find;;a;~
find;aß€;;0
find;aaa;aa;0
find;aaaaa;aa;0
find;abababa;aba;0
find;abcab;ab;0
find;ab;ab;0
find;ab;abc;~
find;abcb;cb;2
find;aab;b;2
find;aß€aß;aß;0
find;ß;\u{C3};~
find;€\u{E2};\u{E2};1
find;\u{1F600}a\u{1F600};\u{1F600};0
find;\u{1F600}\u{1F601};\u{1F601};1
find;e\u{301}e;e\u{301};0
find;e\u{301}e;e;0
find;ée\u{301};\u{301};2
find;e\u{301};é;~
rfind;ab;;2
rfind;;;0
rfind;;a;~
rfind;aß€;;3
rfind;aaa;aa;1
rfind;aaaaa;aa;3
rfind;abababa;aba;4
rfind;abcab;ab;3
rfind;ab;ab;0
rfind;ab;abc;~
rfind;abcb;cb;2
rfind;aab;b;2
rfind;aß€aß;aß;3
rfind;ß;\u{C3};~
rfind;€\u{E2};\u{E2};1
rfind;\u{1F600}a\u{1F600};\u{1F600};2
rfind;\u{1F600}\u{1F601};\u{1F601};1
rfind;e\u{301}e;e\u{301};0
rfind;e\u{301}e;e;2
rfind;ée\u{301};\u{301};2
rfind;e\u{301};é;~
count;ab;;3
count;;;1
count;;a;0
count;aß€;;4
count;aaa;aa;1
count;aaaaa;aa;2
count;abababa;aba;2
count;abcab;ab;2
count;ab;ab;1
count;ab;abc;0
count;abcb;cb;1
count;aab;b;1
count;aß€aß;aß;2
count;ß;\u{C3};0
count;€\u{E2};\u{E2};1
count;\u{1F600}a\u{1F600};\u{1F600};2
count;\u{1F600}\u{1F601};\u{1F601};1
count;e\u{301}e;e\u{301};1
count;e\u{301}e;e;2
count;ée\u{301};\u{301};1
count;e\u{301};é;0
";

/// Whether the method of a row gives its number.
pub(crate) fn number_holds(text: &PyText, part: &PyText, row: &str) -> bool {
    let found = match cell(row, 0) {
        "len" => Some(text.len()),
        "find" => text.find(part),
        "rfind" => text.rfind(part),
        _ => Some(text.count(part)),
    };
    found == number(cell(row, 3))
}

#[test]
fn searches_hold(rt: HostRuntime) {
    each_row_holds(&rt, rt.alloc(), ROWS, 66);
}

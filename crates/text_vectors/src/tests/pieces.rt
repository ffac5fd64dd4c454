// Pieces between separators, and words. One row has each character that `str.isspace` is true of between two letters.
use crate::tests::row::{cell, each_row_holds};
use std::alloc::Global;
use std::process::Abort;
use tx_text::{PyText, Texts};

/// A method, a text, a separator, and the pieces, with `|` in front of each.
const ROWS: &str = "\
split_on;a,,b;,;|a||b
split_on;;,;|
split_on;a,b,c;,;|a|b|c
split_on;,a,;,;||a|
split_on;,;,;||
split_on;,,;,;|||
split_on;abc;,;|abc
split_on;a;abc;|a
split_on;abc;abc;||
split_on;aaa;aa;||a
split_on;aaaa;aa;|||
split_on;xaaay;aa;|x|ay
split_on;abxab;ab;||x|
split_on;a, b, c;, ;|a|b|c
split_on;é€\u{1F600}€z;€;|é|\u{1F600}|z
split_on;e\u{301}ae\u{301};\u{301};|e|ae|
split_on;e\u{301}xe;e\u{301};||xe
split_on;\u{1F600}\u{1F601}\u{1F600};\u{1F600};||\u{1F601}|
split_blank; a  b ;;|a|b
split_blank;;;
split_blank;   ;;
split_blank;a;;|a
split_blank;\t¶ a \r¶ b\u{1C};;|a|b
split_blank;  lead;;|lead
split_blank;trail  ;;|trail
split_blank;é\u{3000}\u{1F600}\u{2003}e\u{301};;|é|\u{1F600}|e\u{301}
split_blank;a\u{200B}b\u{FEFF}c\u{180E}d;;|a\u{200B}b\u{FEFF}c\u{180E}d
split_blank;\u{85}\u{A0};;
split_blank;x\tx¶x\u{B}x\u{C}x\rx\u{1C}x\u{1D}x\u{1E}x\u{1F}x x\u{85}x\u{A0}x\u{1680}x\u{2000}x\u{2001}x\u{2002}x\u{2003}x\u{2004}x\u{2005}x\u{2006}x\u{2007}x\u{2008}x\u{2009}x\u{200A}x\u{2028}x\u{2029}x\u{202F}x\u{205F}x\u{3000}x;;|x|x|x|x|x|x|x|x|x|x|x|x|x|x|x|x|x|x|x|x|x|x|x|x|x|x|x|x|x|x
split_blank;x\u{0}y;;|x\u{0}y
split_blank;x\u{180E}y;;|x\u{180E}y
split_blank;x\u{200B}y;;|x\u{200B}y
split_blank;x\u{FEFF}y;;|x\u{FEFF}y
";

// The pieces of a text by the method of a row.
fn cut(rt: &impl Abort, text: &PyText, sep: &PyText) -> Texts {
    if sep.len() == 0 {
        return text.split_blank().expect(rt, "memory");
    }
    text.split_on(sep).expect(rt, "memory")
}

// A list of texts as a row has it.
fn written(rt: &impl Abort, alloc: Global, pieces: &Texts) -> PyText {
    let mut all = PyText::new(alloc);
    for piece in pieces.as_slice() {
        all.push('|').expect(rt, "memory");
        all.push_str(piece.as_str()).expect(rt, "memory");
    }
    all
}

/// Whether the method of a row gives its pieces.
pub(crate) fn pieces_hold(
    rt: &impl Abort,
    alloc: Global,
    text: &PyText,
    sep: &PyText,
    row: &str,
) -> bool {
    written(rt, alloc, &cut(rt, text, sep)).as_str() == cell(row, 3)
}

#[test]
fn pieces_hold_row_by_row(rt: HostRuntime) {
    each_row_holds(&rt, rt.alloc(), ROWS, 33);
}

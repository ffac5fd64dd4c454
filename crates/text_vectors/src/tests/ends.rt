// Texts without whitespace, or without some characters, at their ends. One row has each character that `str.isspace` is
// true of at both ends.
use crate::tests::row::{cell, each_row_holds, is};
use std::alloc::Global;
use std::process::Abort;
use tx_text::{PyText, Side};

/// A method, a text, the characters that are taken off, `~` for whitespace, and what is left.
const ROWS: &str = "\
strip;a-a;a;-
strip;;~;
strip; \t a b\u{3000}¶;~;a b
strip; ¶ ;~;
strip;a b;~;a b
strip; é\u{1F600} ;~;é\u{1F600}
strip;\u{301} e;~;\u{301} e
strip;;;
strip;  x ;;  x\u{20}
strip;;a;
strip;abcba;ab;c
strip;aabbcbbaa;baab;c
strip;aXa;aaa;X
strip;xyz;zyx;
strip;mississippi;ipz;mississ
strip;www.example.com;cmowz.;example
strip;ab;AB;ab
strip;éaé;éé;a
strip;\u{1F600}a\u{1F600};\u{1F600};a
strip;e\u{301}xe\u{301};\u{301};e\u{301}xe
strip;e\u{301}xe\u{301};e\u{301};x
strip;\t¶\u{B}\u{C}\r\u{1C}\u{1D}\u{1E}\u{1F} \u{85}\u{A0}\u{1680}\u{2000}\u{2001}\u{2002}\u{2003}\u{2004}\u{2005}\u{2006}\u{2007}\u{2008}\u{2009}\u{200A}\u{2028}\u{2029}\u{202F}\u{205F}\u{3000}x\t¶\u{B}\u{C}\r\u{1C}\u{1D}\u{1E}\u{1F} \u{85}\u{A0}\u{1680}\u{2000}\u{2001}\u{2002}\u{2003}\u{2004}\u{2005}\u{2006}\u{2007}\u{2008}\u{2009}\u{200A}\u{2028}\u{2029}\u{202F}\u{205F}\u{3000};~;x
strip;x\u{0};~;x\u{0}
strip;x\u{180E};~;x\u{180E}
strip;x\u{200B};~;x\u{200B}
strip;x\u{FEFF};~;x\u{FEFF}
lstrip;a-a;a;-a
lstrip;;~;
lstrip; \t a b\u{3000}¶;~;a b\u{3000}¶
lstrip; ¶ ;~;
lstrip;a b;~;a b
lstrip; é\u{1F600} ;~;é\u{1F600}\u{20}
lstrip;\u{301} e;~;\u{301} e
lstrip;;;
lstrip;  x ;;  x\u{20}
lstrip;;a;
lstrip;abcba;ab;cba
lstrip;aabbcbbaa;baab;cbbaa
lstrip;aXa;aaa;Xa
lstrip;xyz;zyx;
lstrip;mississippi;ipz;mississippi
lstrip;www.example.com;cmowz.;example.com
lstrip;ab;AB;ab
lstrip;éaé;éé;aé
lstrip;\u{1F600}a\u{1F600};\u{1F600};a\u{1F600}
lstrip;e\u{301}xe\u{301};\u{301};e\u{301}xe\u{301}
lstrip;e\u{301}xe\u{301};e\u{301};xe\u{301}
rstrip;a-a;a;a-
rstrip;;~;
rstrip; \t a b\u{3000}¶;~; \t a b
rstrip; ¶ ;~;
rstrip;a b;~;a b
rstrip; é\u{1F600} ;~; é\u{1F600}
rstrip;\u{301} e;~;\u{301} e
rstrip;;;
rstrip;  x ;;  x\u{20}
rstrip;;a;
rstrip;abcba;ab;abc
rstrip;aabbcbbaa;baab;aabbc
rstrip;aXa;aaa;aX
rstrip;xyz;zyx;
rstrip;mississippi;ipz;mississ
rstrip;www.example.com;cmowz.;www.example
rstrip;ab;AB;ab
rstrip;éaé;éé;éa
rstrip;\u{1F600}a\u{1F600};\u{1F600};\u{1F600}a
rstrip;e\u{301}xe\u{301};\u{301};e\u{301}xe
rstrip;e\u{301}xe\u{301};e\u{301};e\u{301}x
";

// The side of a method.
fn side(method: &str) -> Side {
    match method {
        "lstrip" => Side::Left,
        "rstrip" => Side::Right,
        _ => Side::Both,
    }
}

/// Whether the method of a row leaves its text.
pub(crate) fn end_holds(
    rt: &impl Abort,
    alloc: Global,
    text: &PyText,
    of: &PyText,
    row: &str,
) -> bool {
    let of = if cell(row, 2) == "~" { None } else { Some(of) };
    let left = text.strip(side(cell(row, 0)), of).expect(rt, "memory");
    is(rt, alloc, &left, cell(row, 3))
}

#[test]
fn ends_hold(rt: HostRuntime) {
    each_row_holds(&rt, rt.alloc(), ROWS, 68);
}

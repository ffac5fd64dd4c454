// The calls that make a text of texts, within a limit that is just reached, or passed by one.
use crate::tests::row::{cell, each_row_holds, is, letter, number, own};
use std::alloc::Global;
use std::process::Abort;
use tx_text::{Long, PyText};

/// A method, a text, what goes into it (a text; how often; parts with `|` between them; a width; a part, `>` and what
/// stands in its place), the new text, `~` where it is past the limit, and the limit, where there is one.
const ROWS: &str = "\
concat;;;
concat;a;;a
concat;;é;é
concat;€;€;€€;2
concat;€;€;~;1
concat;ab;;~;1
concat;;;;0
repeat;ab;3;ababab
repeat;ab;0;;0
repeat;€;3;€€€;3
repeat;€;3;~;2
repeat;;5;;0
repeat;;18446744073709551615;;0
repeat;a;18446744073709551615;~;100
repeat;ab;1;~;1
join;,;a|b;a,b
join;;a|b;ab
join;,;a;a
join;--;a||b;a----b;6
join;--;a||b;~;5
join;,;;;0
join;€;é|\u{1F600}|e\u{301};é€\u{1F600}€e\u{301}
join;ab;||;abab;4
join;ab;||;~;3
join;x;abc;~;2
zfill;-7;4;-007
zfill;+7;4;+007
zfill;-;3;-00
zfill;+;1;+
zfill;--1;5;-00-1
zfill;7;3;007
zfill;-7;2;-7
zfill;-7;1;-7
zfill;-7;0;-7
zfill;;3;000
zfill;;0;
zfill;-é;4;-00é
zfill;é-;4;00é-
zfill;€\u{1F600};5;000€\u{1F600}
zfill;1+;4;001+
zfill; -1;5;00 -1
zfill;7;3;007;3
zfill;7;3;~;2
zfill;-77;2;-77;3
zfill;-77;2;~;2
zfill;;0;;0
replace;ab;>-;-a-b-
replace;;>x;x
replace;;a>x;
replace;a;>;a
replace;aß;>€;€a€ß€
replace;banana;an>€;b€€a
replace;banana;a>;bnn
replace;banana;a>aa;baanaanaa
replace;aaa;aa>b;ba
replace;aaaa;aa>a;aa
replace;ab;ab>ba;ba
replace;ab;abc>x;ab
replace;xaxax;x>yy;yyayyayy
replace;\u{1F600}a\u{1F600};\u{1F600}>é;éaé
replace;e\u{301}e;e>o;o\u{301}o
replace;a|b;|>;ab
replace;banana;a>xy;bxynxynxy;9
replace;banana;a>xy;~;8
replace;banana;an>;ba;2
replace;banana;an>;~;1
replace;ab;>-;-a-b-;5
replace;ab;>-;~;4
replace;;>xy;xy;2
replace;;>xy;~;1
replace;ab;c>x;ab;2
replace;ab;c>x;~;1
";

// The parts of a cell joined by a text.
fn joined(
    rt: &impl Abort,
    alloc: Global,
    sep: &PyText,
    parts: &PyText,
    most: usize,
) -> Result<PyText, Long> {
    let parts = parts.split_on(&letter(rt, alloc, '|')).expect(rt, "memory");
    sep.join(&parts, most)
}

// A text with a part replaced.
fn replaced(
    rt: &impl Abort,
    alloc: Global,
    text: &PyText,
    pair: &str,
    most: usize,
) -> Result<PyText, Long> {
    let (old, new) = pair.split_once('>').unwrap_or((pair, ""));
    text.replace(&own(rt, alloc, old), &own(rt, alloc, new), most)
}

/// Whether the method of a row makes its text.
pub(crate) fn made_holds(
    rt: &impl Abort,
    alloc: Global,
    text: &PyText,
    other: &PyText,
    row: &str,
) -> bool {
    let times = number(cell(row, 2)).unwrap_or(0);
    let most = number(cell(row, 4)).unwrap_or(usize::MAX);
    let made = match cell(row, 0) {
        "concat" => text.concat(other, most),
        "repeat" => text.repeat(times, most),
        "join" => joined(rt, alloc, text, other, most),
        "zfill" => text.zfill(times, most),
        _ => replaced(rt, alloc, text, cell(row, 2), most),
    };
    match made {
        Ok(text) => is(rt, alloc, &text, cell(row, 3)),
        Err(Long::TooLong) => cell(row, 3) == "~",
        Err(Long::NoMemory) => false,
    }
}

#[test]
fn made_texts_hold(rt: HostRuntime) {
    each_row_holds(&rt, rt.alloc(), ROWS, 72);
}

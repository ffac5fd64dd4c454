// Texts in capitals and in small letters, characters at places, and parts between places.
use crate::tests::row::{cell, each_row_holds, is, letter, number};
use std::alloc::Global;
use std::process::Abort;
use tx_text::PyText;

/// A method, a text, a place or two as Python writes them, and the text or character; `~` where there is none, as where
/// the profile leaves a character out.
const ROWS: &str = "\
upper;straße;;STRASSE
upper;É;;É
upper;;;
upper;ß;;SS
upper;ÿ;;\u{178}
upper;\u{B5};;\u{39C}
upper;\u{D7}\u{F7};;\u{D7}\u{F7}
upper;@AZ[`az{;;@AZ[`AZ{
upper;À-Þ à-þ;;À-Þ À-Þ
upper;\u{100}a;;~
upper;a\u{100};;~
upper;À\u{C1}\u{C2}\u{C3}\u{C4}\u{C5}\u{C6}\u{C7}\u{C8}É\u{CA}\u{CB}\u{CC}\u{CD}\u{CE}\u{CF}\u{D0}\u{D1}\u{D2}\u{D3}\u{D4}\u{D5}Ö\u{D7}\u{D8}\u{D9}\u{DA}\u{DB}\u{DC}\u{DD}Þ;;À\u{C1}\u{C2}\u{C3}\u{C4}\u{C5}\u{C6}\u{C7}\u{C8}É\u{CA}\u{CB}\u{CC}\u{CD}\u{CE}\u{CF}\u{D0}\u{D1}\u{D2}\u{D3}\u{D4}\u{D5}Ö\u{D7}\u{D8}\u{D9}\u{DA}\u{DB}\u{DC}\u{DD}Þ
lower;straße;;straße
lower;É;;é
lower;;;
lower;ß;;ß
lower;ÿ;;ÿ
lower;\u{B5};;\u{B5}
lower;\u{D7}\u{F7};;\u{D7}\u{F7}
lower;@AZ[`az{;;@az[`az{
lower;À-Þ à-þ;;à-þ à-þ
lower;\u{100}a;;~
lower;a\u{100};;~
lower;À\u{C1}\u{C2}\u{C3}\u{C4}\u{C5}\u{C6}\u{C7}\u{C8}É\u{CA}\u{CB}\u{CC}\u{CD}\u{CE}\u{CF}\u{D0}\u{D1}\u{D2}\u{D3}\u{D4}\u{D5}Ö\u{D7}\u{D8}\u{D9}\u{DA}\u{DB}\u{DC}\u{DD}Þ;;à\u{E1}\u{E2}\u{E3}\u{E4}\u{E5}\u{E6}\u{E7}\u{E8}é\u{EA}\u{EB}\u{EC}\u{ED}\u{EE}\u{EF}\u{F0}\u{F1}\u{F2}\u{F3}\u{F4}\u{F5}ö\u{D7}\u{F8}\u{F9}\u{FA}\u{FB}\u{FC}\u{FD}þ
char_at;abc;1;b
char_at;abc;3;~
char_at;aß€\u{1F600};3;\u{1F600}
char_at;aß€\u{1F600};4;~
char_at;;0;~
char_at;e\u{301};1;\u{301}
char_at;aß€;0;a
char_at;aß€;1;ß
char_at;aß€;2;€
char_at;aß€;3;~
char_at;abcdefghijklmnopqrstuvwxyz;25;z
char_at;abcdefghijklmnopqrstuvwxyz;26;~
char_at;abcdefghijklmnopqrstuvwxyß;25;ß
char_at;€€€€€€€€é;8;é
char_at;€€€€€€€€é;9;~
slice;abc;0:2;ab
slice;abc;1:;bc
slice;abc;2:1;
slice;abc;3:9;
slice;;0:1;
slice;aß€\u{1F600}z;1:4;ß€\u{1F600}
slice;aß€\u{1F600}z;3:4;\u{1F600}
slice;a\u{1F600}b;1:;\u{1F600}b
slice;e\u{301}x;1:3;\u{301}x
slice;ß€;5:7;
";

// The part of a text between two places.
fn part(rt: &impl Abort, text: &PyText, places: &str) -> PyText {
    let (from, to) = places.split_once(':').unwrap_or((places, ""));
    text.slice(number(from).unwrap_or(0), number(to).unwrap_or(usize::MAX))
        .expect(rt, "memory")
}

// The text of the character at a place.
fn character(rt: &impl Abort, alloc: Global, text: &PyText, place: &str) -> Option<PyText> {
    match text.char_at(number(place).unwrap_or(0)) {
        Some(c) => Some(letter(rt, alloc, c)),
        None => None,
    }
}

// What the method of a row makes of its text.
fn made(rt: &impl Abort, alloc: Global, text: &PyText, row: &str) -> Option<PyText> {
    match cell(row, 0) {
        "upper" => text.upper().expect(rt, "memory"),
        "lower" => text.lower().expect(rt, "memory"),
        "slice" => Some(part(rt, text, cell(row, 2))),
        _ => character(rt, alloc, text, cell(row, 2)),
    }
}

/// Whether the method of a row gives its text.
pub(crate) fn part_holds(rt: &impl Abort, alloc: Global, text: &PyText, row: &str) -> bool {
    match made(rt, alloc, text, row) {
        Some(part) => is(rt, alloc, &part, cell(row, 3)),
        None => cell(row, 3) == "~",
    }
}

#[test]
fn parts_hold(rt: HostRuntime) {
    each_row_holds(&rt, rt.alloc(), ROWS, 49);
}

// Calls and their answers, a row each: a call, what it is given, and its answer, with `;` between them. A line feed in a
// text is written `¶`. The answers are CPython's, except where a number is past 128 bits or a text out of the profile.
use std::alloc::Global;
use std::process::Abort;
use tx_num::{Division, IntRead, add, floor_div, floor_mod, mul, neg, print_int, read_int, sub};
use tx_text::PyText;

/// Texts, and the integers that they are read as: forms, the ends of 128 bits, long texts, and texts out of the profile.
const READS: &str = "\
int;0;0
int;-0;0
int;+0;0
int;7;7
int;-12;-12
int;007;7
int; +1_000 ;1000
int;\t¶\u{B}\u{C}\r 5;5
int;5\t¶\u{B}\u{C}\r ;5
int;\u{85}\u{A0}6\u{A0}\u{85};6
int;\u{1680}\u{2000}\u{200A}\u{2028}\u{2029}\u{202F}\u{205F}\u{3000}8\u{3000};8
int;1_2_3;123
int;;ValueError
int;   ;ValueError
int;+;ValueError
int;-;ValueError
int;+-1;ValueError
int;- 1;ValueError
int;--1;ValueError
int;1-;ValueError
int;1__0;ValueError
int;1_;ValueError
int;_1;ValueError
int;+_1;ValueError
int;1 2;ValueError
int;1.5;ValueError
int;1e3;ValueError
int;0x10;ValueError
int;12a;ValueError
int;a12;ValueError
int;1,000;ValueError
int;\u{200B}1;ValueError
int;\u{FEFF}1;ValueError
int;1\u{180E};ValueError
int;\u{B2};ValueError
int;\u{2160};ValueError
int;\u{4E00};ValueError
int;\u{2212}1;ValueError
int;170141183460469231731687303715884105727;170141183460469231731687303715884105727
int;170141183460469231731687303715884105728;past
int;-170141183460469231731687303715884105728;-170141183460469231731687303715884105728
int;-170141183460469231731687303715884105729;past
int;+170141183460469231731687303715884105727;170141183460469231731687303715884105727
int; -170141183460469231731687303715884105728 ;-170141183460469231731687303715884105728
int;9999999999999999999999999999999999999999;past
int;-9999999999999999999999999999999999999999;past
int;00000000000000000000000000000000000000000000000000000000000042;42
int;-00000000000000000000000000000000000000000000000000000000000042;-42
int;0_0_0_0_0_0_0_0_0_0_0_0_0_0_0_0_0_0_0_0_0_0_0_0_0_0_0_0_0_0_7;7
int;9999999999999999999999999999999999999999_;ValueError
int;9999999999999999999999999999999999999999x;ValueError
int;100000000000000000000000000000000000000;100000000000000000000000000000000000000
int;1000000000000000000000000000000000000000;past
int;\u{1C}1;outside
int;1\u{1F};outside
int;\u{1E};outside
int;a\u{1D}b;outside
int;\u{663};outside
int;\u{661}\u{662};outside
int;1\u{FF11};outside
int;x\u{966};outside
int;\u{1D7CE};outside
";

/// Dividends, divisors, and quotients or remainders, at the ends of 128 bits too.
const DIVISIONS: &str = "\
floor_div;7;2;3
floor_mod;7;2;1
floor_div;-7;2;-4
floor_mod;-7;2;1
floor_div;7;-2;-4
floor_mod;7;-2;-1
floor_div;-7;-2;3
floor_mod;-7;-2;-1
floor_div;6;3;2
floor_mod;6;3;0
floor_div;-6;3;-2
floor_mod;-6;3;0
floor_div;6;-3;-2
floor_mod;6;-3;0
floor_div;-6;-3;2
floor_mod;-6;-3;0
floor_div;0;5;0
floor_mod;0;5;0
floor_div;0;-5;0
floor_mod;0;-5;0
floor_div;1;3;0
floor_mod;1;3;1
floor_div;-1;3;-1
floor_mod;-1;3;2
floor_div;1;-3;-1
floor_mod;1;-3;-2
floor_div;-1;-3;0
floor_mod;-1;-3;-1
floor_div;5;0;zero
floor_mod;5;0;zero
floor_div;0;0;zero
floor_mod;0;0;zero
floor_div;-170141183460469231731687303715884105728;0;zero
floor_mod;-170141183460469231731687303715884105728;0;zero
floor_div;-170141183460469231731687303715884105728;-1;past
floor_mod;-170141183460469231731687303715884105728;-1;0
floor_div;-170141183460469231731687303715884105728;1;-170141183460469231731687303715884105728
floor_mod;-170141183460469231731687303715884105728;1;0
floor_div;170141183460469231731687303715884105727;-1;-170141183460469231731687303715884105727
floor_mod;170141183460469231731687303715884105727;-1;0
floor_div;170141183460469231731687303715884105727;1;170141183460469231731687303715884105727
floor_mod;170141183460469231731687303715884105727;1;0
floor_div;-170141183460469231731687303715884105728;170141183460469231731687303715884105727;-2
floor_mod;-170141183460469231731687303715884105728;170141183460469231731687303715884105727;170141183460469231731687303715884105726
floor_div;170141183460469231731687303715884105727;-170141183460469231731687303715884105728;-1
floor_mod;170141183460469231731687303715884105727;-170141183460469231731687303715884105728;-1
floor_div;-170141183460469231731687303715884105728;-170141183460469231731687303715884105728;1
floor_mod;-170141183460469231731687303715884105728;-170141183460469231731687303715884105728;0
floor_div;-170141183460469231731687303715884105728;2;-85070591730234615865843651857942052864
floor_mod;-170141183460469231731687303715884105728;2;0
floor_div;170141183460469231731687303715884105727;-2;-85070591730234615865843651857942052864
floor_mod;170141183460469231731687303715884105727;-2;-1
";

/// Results at the ends of 128 bits.
const ENDS: &str = "\
add;170141183460469231731687303715884105727;0;170141183460469231731687303715884105727
add;170141183460469231731687303715884105727;1;past
add;-170141183460469231731687303715884105728;-1;past
sub;-1;-170141183460469231731687303715884105728;170141183460469231731687303715884105727
sub;0;-170141183460469231731687303715884105728;past
mul;-85070591730234615865843651857942052864;2;-170141183460469231731687303715884105728
mul;-85070591730234615865843651857942052864;-2;past
neg;170141183460469231731687303715884105727;;-170141183460469231731687303715884105727
neg;-170141183460469231731687303715884105728;;past
";

/// Integers and their texts.
const PRINTS: &str = "\
str;0;0
str;-1;-1
str;170141183460469231731687303715884105727;170141183460469231731687303715884105727
str;-170141183460469231731687303715884105728;-170141183460469231731687303715884105728
";

// The cell of a row at a place, empty where the row has fewer.
fn cell(row: &str, at: usize) -> &str {
    row.split(';').nth(at).unwrap_or("")
}

// The integer of a cell.
fn number(cell: &str) -> Option<i128> {
    cell.parse::<i128>().ok()
}

// The text of a cell.
fn own(rt: &impl Abort, alloc: Global, cell: &str) -> PyText {
    let mut lines = cell.split('¶');
    let mut text = PyText::from_str(alloc, lines.next().unwrap_or("")).expect(rt, "memory");
    for line in lines {
        text.push('\n').expect(rt, "memory");
        text.push_str(line).expect(rt, "memory");
    }
    text
}

fn is_read(read: IntRead, cell: &str) -> bool {
    match read {
        IntRead::Value(n) => number(cell) == Some(n),
        IntRead::NotInt => cell == "ValueError",
        IntRead::Past => cell == "past",
        IntRead::OutOfProfile => cell == "outside",
    }
}

fn is_divided(division: Division, cell: &str) -> bool {
    match division {
        Division::Value(n) => number(cell) == Some(n),
        Division::Zero => cell == "zero",
        Division::Past => cell == "past",
    }
}

fn is_kept(sum: Option<i128>, cell: &str) -> bool {
    match sum {
        Some(n) => number(cell) == Some(n),
        None => cell == "past",
    }
}

// Whether a call of two integers gives its answer.
fn result_holds(call: &str, a: i128, b: i128, answer: &str) -> bool {
    match call {
        "add" => is_kept(add(a, b), answer),
        "sub" => is_kept(sub(a, b), answer),
        "mul" => is_kept(mul(a, b), answer),
        "neg" => is_kept(neg(a), answer),
        "floor_div" => is_divided(floor_div(a, b), answer),
        "floor_mod" => is_divided(floor_mod(a, b), answer),
        _ => false,
    }
}

fn is_printed(rt: &impl Abort, alloc: Global, n: i128, text: &str) -> bool {
    print_int(alloc, n).expect(rt, "memory").as_str() == text
}

// Whether a row holds.
fn holds(rt: &impl Abort, alloc: Global, row: &str) -> bool {
    let (call, given) = (cell(row, 0), cell(row, 1));
    let (a, b) = (number(given), number(cell(row, 2)));
    match call {
        "int" => is_read(read_int(&own(rt, alloc, given)), cell(row, 2)),
        "str" => is_printed(rt, alloc, a.unwrap_or(0), cell(row, 2)),
        _ => result_holds(call, a.unwrap_or(0), b.unwrap_or(0), cell(row, 3)),
    }
}

// Asserts that each row of a table holds, and that there are so many.
fn each_row_holds(rt: &impl Abort, alloc: Global, table: &str, rows: usize) {
    let mut tried = 0usize;
    for row in table.lines() {
        assert!(rt; holds(rt, alloc, row), "{row}");
        tried = tried.wrapping_add(1);
    }
    assert!(rt; tried == rows, "{tried} rows");
}

#[test]
fn texts_are_read_as_integers(rt: HostRuntime) {
    each_row_holds(&rt, rt.alloc(), READS, 62);
}

#[test]
fn division_rounds_down(rt: HostRuntime) {
    each_row_holds(&rt, rt.alloc(), DIVISIONS, 52);
}

#[test]
fn results_end_at_128_bits(rt: HostRuntime) {
    each_row_holds(&rt, rt.alloc(), ENDS, 9);
}

#[test]
fn integers_are_printed(rt: HostRuntime) {
    each_row_holds(&rt, rt.alloc(), PRINTS, 4);
}

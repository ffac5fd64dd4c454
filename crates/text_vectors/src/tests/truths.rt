// The order, equality, and digits. A text has no answer for digits where it has a character that the profile leaves out.
use crate::tests::row::{cell, each_row_holds};
use tx_text::PyText;

/// A method, a text, another, and `yes` or `no`.
const ROWS: &str = "\
less;;;no
less;;a;yes
less;a;;no
less;a;ab;yes
less;ab;a;no
less;ab;b;yes
less;Z;a;yes
less;z;é;yes
less;\u{FFFF};\u{10000};yes
less;\u{10000};\u{FFFF};no
less;e\u{301};é;yes
less;e\u{301};e;no
less;\u{1F600};\u{1F601};yes
less;aß;aß;no
equal;;;yes
equal;;a;no
equal;a;;no
equal;a;ab;no
equal;ab;a;no
equal;ab;b;no
equal;Z;a;no
equal;z;é;no
equal;\u{FFFF};\u{10000};no
equal;\u{10000};\u{FFFF};no
equal;e\u{301};é;no
equal;e\u{301};e;no
equal;\u{1F600};\u{1F601};no
equal;aß;aß;yes
is_digit;;;no
is_digit;12;;yes
is_digit;٣;;~
is_digit;0123456789;;yes
is_digit;1a;;no
is_digit;-1;;no
is_digit;1 ;;no
is_digit;/;;no
is_digit;:;;no
is_digit;a٣;;no
is_digit;٣a;;no
is_digit;1\u{B2};;~
is_digit;\u{1F600};;~
";

// A truth value as a row has it.
fn written(truth: Option<bool>) -> &'static str {
    match truth {
        Some(true) => "yes",
        Some(false) => "no",
        None => "~",
    }
}

/// Whether the method of a row gives its truth value.
pub(crate) fn truth_holds(text: &PyText, other: &PyText, row: &str) -> bool {
    let found = match cell(row, 0) {
        "less" => Some(text.less(other)),
        "equal" => Some(text.equal(other)),
        _ => text.is_digit(),
    };
    written(found) == cell(row, 3)
}

#[test]
fn truths_hold(rt: HostRuntime) {
    each_row_holds(&rt, rt.alloc(), ROWS, 41);
}

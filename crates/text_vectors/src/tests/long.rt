// Texts of 100,000 pieces and words.
use crate::tests::row::{letter, own};
use std::alloc::Global;
use std::process::Abort;
use tx_text::PyText;

// So many times the same.
fn long(rt: &impl Abort, alloc: Global, part: &str) -> PyText {
    own(rt, alloc, part)
        .repeat(100_000, usize::MAX)
        .expect(rt, "a text")
}

// A text of 100,000 commas is cut at each, and joined again.
fn is_cut_and_joined(rt: &impl Abort, alloc: Global) -> bool {
    let comma = letter(rt, alloc, ',');
    let long = long(rt, alloc, "ab,");
    let pieces = long.split_on(&comma).expect(rt, "memory");
    let again = comma.join(&pieces, usize::MAX).expect(rt, "a text");
    pieces.len() == 100_001 && long.count(&comma) == 100_000 && again.equal(&long)
}

// One of 100,000 words has as many.
fn is_cut_at_blanks(rt: &impl Abort, alloc: Global) -> bool {
    long(rt, alloc, " ab ")
        .split_blank()
        .expect(rt, "memory")
        .len()
        == 100_000
}

#[test]
fn long_texts_are_cut(rt: HostRuntime) {
    assert!(rt; is_cut_and_joined(&rt, rt.alloc()));
    assert!(rt; is_cut_at_blanks(&rt, rt.alloc()));
}

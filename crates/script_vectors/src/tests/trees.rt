// Trees in a notation of plain text, with their depth, their number of tokens, and whether they are well formed.
mod notation;
mod rows;
mod words;

use crate::tests::trees::notation::{Parts, no_parts, read};
use crate::tests::trees::rows::{BLOCKS, DEEP, EXPRESSIONS, STATEMENTS};
use std::alloc::Global;
use std::process::Abort;
use tx_tree::{depth, spell_len, well_formed};

fn number(text: &str) -> usize {
    text.parse::<usize>().unwrap_or(0)
}

// Up to the first of such signs, and behind it.
fn cut<'a>(text: &'a str, sign: &str) -> (&'a str, &'a str) {
    text.split_once(sign).unwrap_or((text, ""))
}

// Depth, number of tokens, and whether well formed, of the first block that was read.
fn facts(parts: &Parts) -> (usize, usize, bool) {
    match parts.blocks.first() {
        Some(block) => (depth(block) as usize, spell_len(block), well_formed(block)),
        None => (0, 0, false),
    }
}

// The facts of the tree of some words, with others behind them.
fn facts_of(rt: &impl Abort, alloc: Global, words: &str, around: &str) -> (usize, usize, bool) {
    let mut parts = no_parts(alloc);
    read(rt, alloc, &mut parts, words);
    read(rt, alloc, &mut parts, around);
    facts(&parts)
}

// Whether a row says what holds of its tree, with these words behind it.
fn holds(rt: &impl Abort, alloc: Global, row: &str, around: &str) -> bool {
    let (levels, rest) = cut(row, " ");
    let (tokens, rest) = cut(rest, " ");
    let (answer, words) = cut(rest, " ");
    facts_of(rt, alloc, words, around) == (number(levels), number(tokens), answer == "y")
}

fn all_hold(rt: &impl Abort, alloc: Global, table: &str, around: &str) -> usize {
    let mut rows = 0usize;
    for row in table.lines().skip(1) {
        assert!(rt; holds(rt, alloc, row, around), "{row}");
        rows = rows.wrapping_add(1);
    }
    rows
}

#[test]
fn trees_hold(rt: HostRuntime) {
    assert!(rt; all_hold(&rt, rt.alloc(), EXPRESSIONS, "value head:p/1 whole") == 155);
    assert!(rt; all_hold(&rt, rt.alloc(), STATEMENTS, "suite/1 def:f") == 65);
    assert!(rt; all_hold(&rt, rt.alloc(), BLOCKS, "") == 37);
}

// The facts of the tree that so many steps from a beginning make, with other words behind them.
fn facts_after(
    rt: &impl Abort,
    alloc: Global,
    first: &str,
    step: &str,
    times: usize,
    around: &str,
) -> (usize, usize, bool) {
    let mut parts = no_parts(alloc);
    read(rt, alloc, &mut parts, first);
    for _ in 0..times {
        read(rt, alloc, &mut parts, step);
    }
    read(rt, alloc, &mut parts, around);
    facts(&parts)
}

// The depth of a row's tree with some more steps.
fn depth_after(rt: &impl Abort, alloc: Global, row: &str, more: usize) -> usize {
    let (times, rest) = cut(row, " ; ");
    let (first, rest) = cut(rest, " ; ");
    let (step, around) = cut(rest, " ; ");
    let times = number(times).wrapping_add(more);
    facts_after(rt, alloc, first, step, times, around).0
}

#[test]
fn each_node_is_one_level(rt: HostRuntime) {
    let mut rows = 0usize;
    for row in DEEP.lines().skip(1) {
        assert!(rt;
            depth_after(&rt, rt.alloc(), row, 0) == 64
                && depth_after(&rt, rt.alloc(), row, 1) == 65,
            "{row}"
        );
        rows = rows.wrapping_add(1);
    }
    assert!(rt; rows == 28);
}

#[test]
fn a_list_of_100_000_items_is_walked(rt: HostRuntime) {
    let around = "[/100000 value head:p/1 whole";
    assert!(rt; facts_after(&rt, rt.alloc(), "", "$a", 100_000, around) == (2, 200_005, true));
}

// The words of keywords, marks, methods, functions, walks and operators.
use crate::tests::trees::notation::{binary_op, compare_op, unary_op};
use std::process::Abort;
use tx_tree::{builtin_named, keyword_named, mark_named, method_named, walk_named};

// A letter for the enum, the place in its declaration, and the word. The keywords are CPython's `keyword.kwlist`, in its
// order. A word at the place 99 names nothing.
const NAMED: &str = r#"
k 0 False
k 1 None
k 2 True
k 3 and
k 4 as
k 5 assert
k 6 async
k 7 await
k 8 break
k 9 class
k 10 continue
k 11 def
k 12 del
k 13 elif
k 14 else
k 15 except
k 16 finally
k 17 for
k 18 from
k 19 global
k 20 if
k 21 import
k 22 in
k 23 is
k 24 lambda
k 25 nonlocal
k 26 not
k 27 or
k 28 pass
k 29 raise
k 30 return
k 31 try
k 32 while
k 33 with
k 34 yield
s 0 (
s 1 )
s 2 [
s 3 ]
s 4 {
s 5 }
s 6 ,
s 7 :
s 8 .
s 9 =
s 10 +
s 11 -
s 12 *
s 13 //
s 14 %
s 15 +=
s 16 -=
s 17 *=
s 18 //=
s 19 %=
s 20 ==
s 21 !=
s 22 <
s 23 <=
s 24 >
s 25 >=
m 0 lower
m 1 upper
m 2 strip
m 3 lstrip
m 4 rstrip
m 5 split
m 6 replace
m 7 find
m 8 rfind
m 9 index
m 10 count
m 11 startswith
m 12 endswith
m 13 join
m 14 zfill
m 15 isdigit
m 16 get
f 0 len
f 1 int
f 2 str
f 3 bool
f 4 abs
f 5 min
f 6 max
f 7 sum
f 8 any
f 9 all
f 10 ord
f 11 list
f 12 tuple
w 0 range
w 1 enumerate
w 2 zip
w 3 items
w 4 keys
w 5 values
k 99 IF
k 99 print
k 99 match
k 99 els
k 99
s 99 /
s 99 **
s 99 ->
s 99 x
m 99 items
m 99 title
m 99 Lower
f 99 range
f 99 print
f 99 Len
w 99 len
w 99 rang
w 99 ranges
"#;

// A sign for the enum, the sign of the operator in the notation, and the word.
const OPERATORS: &str = r#"
+ + +
+ - -
+ * *
+ ~ //
+ % %
u n -
u p +
= = ==
= ! !=
= < <
= l <=
= > >
= g >=
= i in
= n not in
= s is
= t is not
"#;

// `t`, a letter for the enum, the word, and the least and the greatest number of arguments (99: any). CPython takes each of these
// numbers, and of some words other ones too, which the language leaves out.
const TAKEN: &str = r#"
t m lower 0 0
t m upper 0 0
t m strip 0 1
t m lstrip 0 1
t m rstrip 0 1
t m split 0 1
t m replace 2 2
t m find 1 1
t m rfind 1 1
t m index 1 1
t m count 1 1
t m startswith 1 1
t m endswith 1 1
t m join 1 1
t m zfill 1 1
t m isdigit 0 0
t m get 1 2
t f len 1 1
t f int 1 1
t f str 1 1
t f bool 1 1
t f abs 1 1
t f min 1 99
t f max 1 99
t f sum 1 1
t f any 1 1
t f all 1 1
t f ord 1 1
t f list 1 1
t f tuple 1 1
t w range 1 3
t w enumerate 1 1
t w zip 2 2
t w items 0 0
t w keys 0 0
t w values 0 0
"#;

fn cut<'a>(text: &'a str) -> (&'a str, &'a str) {
    text.split_once(' ').unwrap_or((text, ""))
}

fn number(text: &str) -> usize {
    text.parse::<usize>().unwrap_or(99)
}

fn first(text: &str) -> char {
    text.chars().next().unwrap_or(' ')
}

// The place in the declaration of what a word names.
fn place_of(kind: char, word: &str) -> Option<usize> {
    match kind {
        'k' => keyword_named(word).map(|named| named as usize),
        's' => mark_named(word).map(|named| named as usize),
        'm' => method_named(word).map(|named| named as usize),
        'f' => builtin_named(word).map(|named| named as usize),
        _ => walk_named(word).map(|named| named as usize),
    }
}

// The word of what a word names.
fn word_again(kind: char, word: &str) -> &'static str {
    match kind {
        'k' => keyword_named(word).map_or("", |named| named.word()),
        's' => mark_named(word).map_or("", |named| named.word()),
        'm' => method_named(word).map_or("", |named| named.word()),
        'f' => builtin_named(word).map_or("", |named| named.word()),
        _ => walk_named(word).map_or("", |named| named.word()),
    }
}

fn is_named(row: &str) -> bool {
    let (kind, rest) = cut(row);
    let (place, word) = cut(rest);
    match place_of(first(kind), word) {
        Some(found) => { number(place) == found && word_again(first(kind), word) == word }
        None => place == "99",
    }
}

fn takes(kind: char, word: &str, count: usize) -> bool {
    match kind {
        'm' => method_named(word).map_or(false, |named| named.takes(count)),
        'f' => builtin_named(word).map_or(false, |named| named.takes(count)),
        _ => walk_named(word).map_or(false, |named| named.takes(count)),
    }
}

fn is_taken(row: &str) -> bool {
    let (kind, rest) = cut(row);
    let (word, rest) = cut(rest);
    let (least, most) = cut(rest);
    let (least, most) = (number(least), number(most));
    for count in 0..6usize {
        if takes(first(kind), word, count) != (least <= count && count <= most) {
            return false;
        }
    }
    true
}

fn operator_word(kind: char, sign: char) -> &'static str {
    match kind {
        '+' => binary_op(sign).word(),
        'u' => unary_op(sign).word(),
        _ => compare_op(sign).word(),
    }
}

fn is_operator(row: &str) -> bool {
    let (kind, rest) = cut(row);
    let (sign, word) = cut(rest);
    operator_word(first(kind), first(sign)) == word
}

// Whether a row holds of what its first sign says.
fn holds(row: &str) -> bool {
    match first(row) {
        '+' | 'u' | '=' => is_operator(row),
        't' => is_taken(row.strip_prefix("t ").unwrap_or("")),
        _ => is_named(row),
    }
}

fn all_hold(rt: &impl Abort, table: &str) -> usize {
    let mut rows = 0usize;
    for row in table.lines().skip(1) {
        assert!(rt; holds(row), "{row}");
        rows = rows.wrapping_add(1);
    }
    rows
}

#[test]
fn words_hold(rt: HostRuntime) {
    assert!(rt; all_hold(&rt, NAMED) == 115);
    assert!(rt; all_hold(&rt, OPERATORS) == 17);
    assert!(rt; all_hold(&rt, TAKEN) == 36);
}

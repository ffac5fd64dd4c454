// Calls of a place and of a console as plain text, and their answers.
ghost use Rattle.std.specs.Prelude.{◌<◌};

use std::alloc::Global;
use std::process::Abort;
use tx_place::{CallError, Console, Files, MemoryConsole, MemoryPlace, Place, ReadError, read_all};
use tx_text::{Bytes, Numbers, PyText};

// The numbers of a text, with blanks between them.
fn numbers(rt: &impl Abort, alloc: Global, text: &str) -> Numbers {
    let mut all = Numbers::new(alloc);
    for word in text.split(' ') {
        if let Ok(number) = word.parse::<u64>() {
            all.push(number).expect(rt, "memory");
        }
    }
    all
}

fn number(word: &str) -> u64 {
    word.parse::<u64>().unwrap_or(0)
}

// The cell of a row at a place, empty where the row has fewer.
fn cell(row: &str, at: usize) -> &str {
    row.split(';').nth(at).unwrap_or("")
}

fn word(call: &str, at: usize) -> &str {
    call.split(' ').nth(at).unwrap_or("")
}

fn put(rt: &impl Abort, answers: &mut Bytes, bytes: &[u8]) {
    answers.push_all(bytes).expect(rt, "memory");
}

fn done(rt: &impl Abort, told: Result<(), CallError>, answers: &mut Bytes) {
    match told {
        Ok(()) => put(rt, answers, b"ok"),
        Err(CallError::Failed) => put(rt, answers, b"failed"),
        Err(CallError::NoMemory) => put(rt, answers, b"no memory"),
    }
}

fn read<P: Place>(rt: &impl Abort, place: &mut P, name: &str, at: u64, answers: &mut Bytes) {
    let mut into = [0u8; 4];
    match place.read_at(name, at, &mut into) {
        Ok(taken) => put(rt, answers, &into[..taken]),
        Err(e) => done(rt, Err(e), answers),
    }
}

fn whole<P: Place>(
    rt: &impl Abort,
    alloc: Global,
    place: &mut P,
    name: &str,
    limit: u64,
    answers: &mut Bytes,
) {
    match read_all(alloc, place, name, limit) {
        Ok(bytes) => put(rt, answers, bytes.as_slice()),
        Err(ReadError::TooLarge) => put(rt, answers, b"too large"),
        Err(ReadError::Fault) => put(rt, answers, b"failed"),
        Err(ReadError::NoMemory) => put(rt, answers, b"no memory"),
    }
}

// Creates a file, and appends two pieces to it.
fn write<P: Place>(place: &mut P, name: &str, first: &str, second: &str) -> Result<(), CallError> {
    place.create(name)?;
    place.append(name, first.as_bytes())?;
    place.append(name, second.as_bytes())
}

fn answer<P: Place>(
    rt: &impl Abort,
    alloc: Global,
    place: &mut P,
    call: &str,
    answers: &mut Bytes,
) {
    let kind = word(call, 0);
    let name = word(call, 1);
    let at = number(word(call, 2));
    if kind == "read" {
        read(rt, place, name, at, answers);
    } else if kind == "whole" {
        whole(rt, alloc, place, name, at, answers);
    } else if kind == "create" {
        done(rt, place.create(name), answers);
    } else {
        done(
            rt,
            write(place, name, word(call, 2), word(call, 3)),
            answers,
        );
    }
}

/// The answers of calls in turn: `read NAME AT` of four bytes, `whole NAME LIMIT`, `create NAME`, and `write NAME A B`,
/// which creates a file and appends to it twice.
pub(crate) fn answers<P: Place>(
    rt: &impl Abort,
    alloc: Global,
    place: &mut P,
    calls: &str,
) -> Bytes {
    let mut answers = Bytes::new(alloc);
    for call in calls.split(", ") {
        answer(rt, alloc, place, call, &mut answers);
        put(rt, &mut answers, b", ");
    }
    answers
}

/// The answers of `say BYTES` and `complain BYTES` in turn.
pub(crate) fn told<C: Console>(
    rt: &impl Abort,
    alloc: Global,
    console: &mut C,
    calls: &str,
) -> Bytes {
    let mut answers = Bytes::new(alloc);
    for call in calls.split(", ") {
        let (kind, text) = call.split_once(' ').unwrap_or(("", ""));
        let answer = if kind == "say" {
            console.say(text.as_bytes())
        } else {
            console.complain(text.as_bytes())
        };
        done(rt, answer, &mut answers);
        put(rt, &mut answers, b", ");
    }
    answers
}

fn small(rt: &impl Abort, alloc: Global) -> Bytes {
    let mut bytes = Bytes::new(alloc);
    put(rt, &mut bytes, b"123456");
    bytes
}

// A place with one file that gives at most so many bytes at once.
fn place(rt: &impl Abort, alloc: Global, bytes: Bytes, failing: Numbers, most: usize) -> MemoryPlace
    requires { 0 < most }
{
    let name = PyText::from_str(alloc, "a.csv").expect(rt, "memory");
    let mut files = Files::new(alloc);
    files.push((name, bytes)).expect(rt, "memory");
    MemoryPlace::new(alloc, files, failing, most).expect(rt, "memory")
}

// The numbers of the calls that are to fail, the calls, and their answers. A call that was made to fail leaves what the
// contracts say: an append half of its bytes, a create what was there. The place has `a.csv` of six bytes, and gives at most
// three at once.
const PLACES: &str = "\
2;read a.csv 1, read a.csv 1, read a.csv 4, read a.csv 6, read a.csv 9, read b.csv 0;234, failed, 56, , , failed, 
1;create a.csv, whole a.csv 9;failed, 123456, 
;create a.csv, whole a.csv 9;ok, , 
3;write o.csv xy zzz, whole o.csv 9, whole a.csv 9;failed, xyz, 123456, 
3;write o.csv xy zzzz, whole o.csv 9;failed, xyzz, 
;write o.csv xy zz, whole o.csv 4, whole o.csv 3;ok, xyzz, too large, 
;write a.csv x y, whole a.csv 9;ok, xy, 
;whole a.csv 6, whole a.csv 5, whole none.csv 5;123456, too large, failed, 
3;whole a.csv 6, whole a.csv 6;failed, 123456, 
";

// Whether the calls of a row have its answers.
fn answers_are_those(rt: &impl Abort, alloc: Global, row: &str) -> bool {
    let failing = numbers(rt, alloc, cell(row, 0));
    let mut place = place(rt, alloc, small(rt, alloc), failing, 3);
    answers(rt, alloc, &mut place, cell(row, 1)).as_slice() == cell(row, 2).as_bytes()
}

#[test]
fn places_answer_their_calls(rt: HostRuntime) {
    let mut rows = 0usize;
    for row in PLACES.lines() {
        assert!(rt; answers_are_those(&rt, rt.alloc(), row), "{row}");
        rows = rows.wrapping_add(1);
    }
    assert!(rt; rows == 9);
}

// Whether a console whose second and third call fail took half of their bytes.
fn takes_half(rt: &impl Abort, alloc: Global) -> bool {
    let failing = numbers(rt, alloc, "2 3");
    let mut console = MemoryConsole::new(alloc, failing).expect(rt, "memory");
    let answers = told(
        rt,
        alloc,
        &mut console,
        "say abc, say defgh, complain xyz, complain !",
    );
    answers.as_slice() == b"ok, failed, failed, ok, ".as_slice()
        && console.said() == b"abcde".as_slice()
        && console.complained() == b"x!".as_slice()
}

#[test]
fn a_console_that_fails_took_half(rt: HostRuntime) {
    assert!(rt; takes_half(&rt, rt.alloc()));
}

fn has(place: &MemoryPlace, name: &str, bytes: &[u8]) -> bool {
    match place.bytes_of(name) {
        Some(held) => held == bytes,
        None => false,
    }
}

#[test]
fn bytes_of_a_name(rt: HostRuntime) {
    let alloc = rt.alloc();
    let place = place(&rt, alloc, small(&rt, alloc), Numbers::new(alloc), 1);
    assert!(rt; has(&place, "a.csv", b"123456"));
    assert!(rt; !has(&place, "none.csv", b""));
}

// Some bytes of which no piece is like its neighbours.
fn many(rt: &impl Abort, alloc: Global, count: u32) -> Bytes {
    let mut bytes = Bytes::new(alloc);
    for i in 0..count {
        bytes.push((i % 251) as u8).expect(rt, "memory");
    }
    bytes
}

fn are_many(bytes: &[u8], count: usize) -> bool {
    let mut wanted = 0u8;
    for byte in bytes {
        if *byte != wanted {
            return false;
        }
        wanted = if wanted == 250 {
            0
        } else {
            wanted.wrapping_add(1)
        };
    }
    bytes.len() == count
}

fn reads_all(rt: &impl Abort, alloc: Global, most: usize) -> bool
    requires { 0 < most }
{
    let bytes = many(rt, alloc, 150_000);
    let mut place = place(rt, alloc, bytes, Numbers::new(alloc), most);
    match read_all(alloc, &mut place, "a.csv", 150_000) {
        Ok(bytes) => are_many(bytes.as_slice(), 150_000),
        Err(_) => false,
    }
}

#[test]
fn a_large_file_is_read_in_pieces(rt: HostRuntime) {
    assert!(rt; reads_all(&rt, rt.alloc(), 997));
}

// Defs that call each other, each from as deep inside an expression as a tree may be: the stack is enough for them.
use crate::tests::given::called;
use crate::tests::read::add_def;
use std::alloc::Global;
use tx_interp::Arg;
use tx_names::{Defs, Role};
use tx_text::{NoMemory, PyText};
use tx_values::Value;

// How many defs there are.
const DEFS: usize = 64;

// What stands ahead of a call and behind it, and how often; the value stays what it is.
pub const NESTS: &str = r#"
( ; ) ; 60
"#;

pub const COUNT: usize = 1;

fn repeat_onto(text: &mut PyText, part: &str, count: usize) -> Result<(), NoMemory> {
    for _ in 0..count {
        text.push_str(part)?;
    }
    Ok(())
}

fn push_name(text: &mut PyText, at: usize) -> Result<(), NoMemory> {
    text.push_str("d")?;
    repeat_onto(text, "x", at)
}

fn name_of(alloc: Global, at: usize) -> Result<PyText, NoMemory> {
    let mut name = PyText::new(alloc);
    push_name(&mut name, at)?;
    Ok(name)
}

// `def dxx(v):`, `return ((..dx(v)..))`; the first def gives its value back.
fn def_of(
    alloc: Global,
    at: usize,
    open: &str,
    close: &str,
    count: usize,
) -> Result<PyText, NoMemory> {
    let mut text = PyText::new(alloc);
    text.push_str("def ")?;
    push_name(&mut text, at)?;
    text.push_str("(v):\n    return ")?;
    if at == 0 {
        text.push_str("v")?;
        return Ok(text);
    }
    repeat_onto(&mut text, open, count)?;
    push_name(&mut text, at.wrapping_sub(1))?;
    text.push_str("(v)")?;
    repeat_onto(&mut text, close, count)?;
    Ok(text)
}

fn deep_defs(alloc: Global, open: &str, close: &str, count: usize) -> Option<Defs> {
    let mut defs = Defs::new(alloc);
    for at in 0..DEFS {
        let text = def_of(alloc, at, open, close, count).ok()?;
        let name = name_of(alloc, at).ok()?;
        add_def(
            alloc,
            &mut defs,
            name.as_str(),
            Role::Plain(1),
            text.as_str(),
        )?;
    }
    Some(defs)
}

fn is_five(alloc: Global, defs: &Defs) -> bool {
    match defs.get(DEFS - 1) {
        Some(last) => match called(alloc, &last.function, Arg::Plain(&Value::Int(5)), None) {
            Ok(Value::Int(n)) => n == 5,
            _ => false,
        },
        None => false,
    }
}

/// Whether the last def of a row gives its value back.
pub(crate) fn holds(alloc: Global, row: &str) -> bool {
    let mut parts = row.split(" ; ");
    let (Some(open), Some(close), Some(count)) = (parts.next(), parts.next(), parts.next()) else {
        return false;
    };
    let count = count.parse::<usize>().unwrap_or(0);
    match deep_defs(alloc, open, close, count) {
        Some(defs) => is_five(alloc, &defs),
        None => false,
    }
}

use crate::tests::row::each_row_holds;
use std::alloc::Global;
use std::process::Abort;
use tx_base::Class;
use tx_text::PyText;
use tx_values::{Items, MOST_DEPTH, MOST_WEIGHT, Value, depth, made, weight};

// A value, its weight and its depth.
const LIMITS: &str = "\
None ; weight, depth ; 0 ; 0
True ; weight, depth ; 0 ; 0
7 ; weight, depth ; 0 ; 0
'\u{20ac}' ; weight, depth ; 1 ; 0
[ ] ; weight, depth ; 0 ; 1
( ) ; weight, depth ; 0 ; 1
{ } ; weight, depth ; 0 ; 1
[ '\u{20ac}' , 7 ] ; weight, depth ; 3 ; 1
{ 'k' : 'v' , 1 : None } ; weight, depth ; 4 ; 1
( [ 7 ] , None ) ; weight, depth ; 3 ; 2
{ 'k' : [ 'v' , None ] } ; weight, depth ; 5 ; 2
{ ( None , ) : None } ; weight, depth ; 2 ; 2
[ [ [ ] ] ] ; weight, depth ; 2 ; 3
";

/// Whether a value has the weight and the depth of a row.
pub(crate) fn measures(value: &Value, heavy: &str, deep: &str) -> bool {
    heavy.parse::<u64>().ok() == Some(weight(value))
        && deep.parse::<u32>().ok() == Some(depth(value))
}

#[test]
fn values_have_a_weight_and_a_depth(rt: HostRuntime) {
    each_row_holds(&rt, rt.alloc(), LIMITS, 13);
}

fn list_of(rt: &impl Abort, alloc: Global, item: Value) -> Value {
    let mut items = Items::new(alloc);
    items.push(item).expect(rt, "memory");
    Value::List(items)
}

// A list of one text of so many characters.
fn heavy(rt: &impl Abort, alloc: Global, characters: usize) -> Value {
    let letter = PyText::from_str(alloc, "x").expect(rt, "memory");
    let letters = letter.repeat(characters, characters).expect(rt, "a text");
    list_of(rt, alloc, Value::Text(letters))
}

// A list in lists, so deep.
fn nested(rt: &impl Abort, alloc: Global, depth: u32) -> Value {
    let mut value = Value::Nil;
    for _ in 0..depth {
        value = list_of(rt, alloc, value);
    }
    value
}

fn is_refused(value: Value) -> bool {
    made(value).err() == Some(Class::ProfileError)
}

#[test]
fn what_is_made_is_within_the_limits(rt: HostRuntime) {
    let alloc = rt.alloc();
    let most = MOST_WEIGHT as usize;
    assert!(rt; !is_refused(heavy(&rt, alloc, most - 1)));
    assert!(rt; is_refused(heavy(&rt, alloc, most)));
    assert!(rt; !is_refused(nested(&rt, alloc, MOST_DEPTH)));
    assert!(rt; is_refused(nested(&rt, alloc, MOST_DEPTH + 1)));
}

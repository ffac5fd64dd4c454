use crate::tests::row::each_row_holds;
use crate::tests::written::value_of;
use std::alloc::Global;
use std::process::Abort;
use tx_values::{Value, copy_items, equal, value_under};

// A dictionary, a key, and the key's value; `-` where it has none.
const LOOKUPS: &str = "\
{ 1 : 'a' } ; at ; 1 ; 'a'
{ 1 : 'a' } ; at ; True ; 'a'
{ False : 'a' } ; at ; 0 ; 'a'
{ 1 : 'a' } ; at ; '1' ; -
{ 'a' : 1 , 'b' : 2 } ; at ; 'b' ; 2
{ 'a' : 1 , 'b' : 2 } ; at ; 'c' ; -
{ None : [ 3 ] } ; at ; None ; [ 3 ]
{ ( 1 , 'a' ) : 4 } ; at ; ( True , 'a' ) ; 4
{ } ; at ; 0 ; -
";

/// Whether a dictionary has under a key the value of a row.
pub(crate) fn is_found(
    rt: &impl Abort,
    alloc: Global,
    dict: &Value,
    key: &Value,
    answer: &str,
) -> bool {
    match dict {
        Value::Dict(pairs) => match value_under(pairs.as_slice(), key) {
            Some(value) => equal(value, &value_of(rt, alloc, answer)),
            None => answer == "-",
        },
        _ => false,
    }
}

#[test]
fn keys_are_looked_up(rt: HostRuntime) {
    each_row_holds(&rt, rt.alloc(), LOOKUPS, 9);
}

// Whether the items of a list are copied.
fn are_copied(rt: &impl Abort, alloc: Global, list: &Value) -> bool {
    match list {
        Value::List(items) => {
            let copied = copy_items(alloc, items.as_slice()).expect(rt, "memory");
            equal(list, &Value::List(copied))
        }
        _ => false,
    }
}

#[test]
fn items_are_copied(rt: HostRuntime) {
    let list = value_of(&rt, rt.alloc(), "[ 1 , 'a' , [ None , { 2 : ( ) } ] ]");
    assert!(rt; are_copied(&rt, rt.alloc(), &list));
}

use crate::tests::row::each_row_holds;
use crate::tests::written::value_of;
use std::alloc::Global;
use std::hash::{DefaultHasher, Hash, Hasher};
use std::process::Abort;
use tx_base::Class;
use tx_values::{Key, OpError, Value, hashable, key_of, key_of_items};

// A value, and whether Python's `hash` takes it.
const HASHABLE: &str = "\
None ; hash ; True
True ; hash ; True
1 ; hash ; True
'a' ; hash ; True
( ) ; hash ; True
( None , ( ) ) ; hash ; True
[ ] ; hash ; False
{ } ; hash ; False
( [ ] , ) ; hash ; False
( 1 , ( { } , ) ) ; hash ; False
( 1 , ( ( ) , ) ) ; hash ; True
";

/// Whether a value has a key exactly where it is hashable, and else raises TypeError.
pub(crate) fn has_key(alloc: Global, value: &Value, answer: &str) -> bool {
    let raised = key_of(alloc, value).err() == Some(OpError::Raise(Class::TypeError));
    let expected = answer == "True";
    hashable(value) == expected && raised != expected
}

#[test]
fn lists_and_dictionaries_have_no_key(rt: HostRuntime) {
    each_row_holds(&rt, rt.alloc(), HASHABLE, 11);
}

fn hash_of(key: &Key) -> u64 {
    let mut hasher = DefaultHasher::new();
    key.hash(&mut hasher);
    hasher.finish()
}

// Whether two keys are one, and hash alike, or neither.
fn alike(a: &Key, b: &Key, answer: bool) -> bool {
    (a == b) == answer && (hash_of(a) == hash_of(b)) == answer
}

// Two hashable values, and whether they are one key of a dictionary.
const KEYS: &str = "\
True ; one key ; 1
0 ; one key ; False
1 ; two keys ; 'a'
None ; two keys ; ( )
None ; two keys ; 0
( 1 , 'a' ) ; one key ; ( True , 'a' )
( ( 1 , ) , 1 ) ; two keys ; ( 1 , ( 1 , ) )
'a' ; one key ; 'a'
( ) ; one key ; ( )
( 1 , 2 ) ; two keys ; ( 2 , 1 )
( 1 , 2 ) ; two keys ; ( 1 , )
( 1 , ) ; two keys ; 1
";

/// Whether two values have one key exactly where a row says so.
pub(crate) fn keys_agree(
    rt: &impl Abort,
    alloc: Global,
    a: &Value,
    b: &Value,
    answer: bool,
) -> bool {
    let a = key_of(alloc, a).expect(rt, "a key");
    let b = key_of(alloc, b).expect(rt, "a key");
    alike(&a, &b, answer)
}

#[test]
fn equal_values_are_one_key(rt: HostRuntime) {
    each_row_holds(&rt, rt.alloc(), KEYS, 12);
}

// Whether the key of a list's items is that of the tuple.
fn items_agree(rt: &impl Abort, alloc: Global, tuple: &Value) -> bool {
    let whole = key_of(alloc, tuple).expect(rt, "a key");
    match tuple {
        Value::Tuple(items) => {
            let key = key_of_items(alloc, items.as_slice()).expect(rt, "a key");
            alike(&whole, &key, true)
        }
        _ => false,
    }
}

#[test]
fn items_have_the_key_of_their_tuple(rt: HostRuntime) {
    let tuple = value_of(&rt, rt.alloc(), "( 1 , ( None , 'qty' ) , True )");
    assert!(rt; items_agree(&rt, rt.alloc(), &tuple));
}

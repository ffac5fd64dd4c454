use crate::tests::row::each_row_holds;
use std::alloc::Global;
use std::process::Abort;
use tx_values::{Pairs, Value, copy, equal, truthy};

// Two values, and whether they are equal.
const EQUALITY: &str = "\
True ; == ; 1
0 ; == ; False
True ; != ; 2
True ; == ; True
1 ; != ; '1'
None ; == ; None
None ; != ; False
None ; != ; 0
'' ; == ; ''
'' ; != ; None
'a' ; != ; 'A'
'\u{e9}' ; != ; 'e\u{301}'
-170141183460469231731687303715884105728 ; == ; -170141183460469231731687303715884105728
-170141183460469231731687303715884105728 ; != ; 170141183460469231731687303715884105727
[ ] ; != ; ( )
[ ] ; == ; [ ]
( ) ; != ; { }
( 1 , ) ; == ; ( True , )
[ 1 ] ; != ; [ 1 , 2 ]
[ 1 , 2 ] ; != ; [ 1 ]
[ 1 , 2 ] ; != ; [ 2 , 1 ]
( 1 , ) ; != ; 1
{ } ; == ; { }
{ } ; != ; None
{ 'a' : 1 } ; == ; { 'a' : True }
{ 'a' : 1 } ; != ; { 'a' : 2 }
{ 'a' : 1 } ; != ; { 'b' : 1 }
{ 'a' : 1 , 'b' : 2 } ; == ; { 'b' : 2 , 'a' : 1 }
{ 'a' : 1 } ; != ; { 'a' : 1 , 'b' : 2 }
{ 'a' : 1 , 'b' : 2 } ; != ; { 'a' : 1 }
{ 'a' : 1 , 'b' : 2 } ; != ; { 'a' : 2 , 'b' : 1 }
{ 'a' : 1 , 'b' : 2 , 'c' : 3 } ; == ; { 'b' : 2 , 'c' : 3 , 'a' : 1 }
{ 'a' : 1 , 'b' : 1 } ; != ; { 'a' : 1 , 'c' : 1 }
{ 1 : 'x' } ; == ; { True : 'x' }
[ [ 0 ] , ( ) ] ; == ; [ [ False ] , ( ) ]
[ [ 0 ] , ( ) ] ; != ; [ [ 0 ] , [ ] ]
( { 'k' : [ ] } , ) ; == ; ( { 'k' : [ ] } , )
{ ( 1 , ) : [ 1 ] } ; == ; { ( True , ) : [ True ] }
{ ( 1 , ) : [ 1 ] } ; != ; { ( 1 , ) : ( 1 , ) }
[ ( 1 , { 'k' : [ 0 ] } ) ] ; == ; [ ( True , { 'k' : [ False ] } ) ]
";

/// Whether two values are equal, in both directions, the second one copied, exactly where a row says so.
pub(crate) fn is_compared(
    rt: &impl Abort,
    alloc: Global,
    a: &Value,
    b: &Value,
    answer: bool,
) -> bool {
    let copied = copy(alloc, b).expect(rt, "memory");
    equal(a, b) == answer && equal(&copied, a) == answer
}

#[test]
fn equal_values_are_found(rt: HostRuntime) {
    each_row_holds(&rt, rt.alloc(), EQUALITY, 40);
}

// A dictionary of so many pairs, whose keys rise.
fn numbered_pairs(rt: &impl Abort, alloc: Global, count: i128) -> Value {
    let mut pairs = Pairs::new(alloc);
    for number in 0..count {
        pairs
            .push((Value::Int(number), Value::Nil))
            .expect(rt, "memory");
    }
    Value::Dict(pairs)
}

// So large a dictionary is equal to its copy. Comparing each pair with each would take hours.
#[test]
fn large_dictionaries_of_one_order_are_compared_quickly(rt: HostRuntime) {
    let pairs = numbered_pairs(&rt, rt.alloc(), 100_000);
    assert!(rt; is_compared(&rt, rt.alloc(), &pairs, &pairs, true));
}

// A value, and whether Python's `bool` says that it is true.
const TRUTH: &str = "\
None ; bool ; False
False ; bool ; False
True ; bool ; True
0 ; bool ; False
1 ; bool ; True
-1 ; bool ; True
'' ; bool ; False
'a' ; bool ; True
'0' ; bool ; True
( ) ; bool ; False
( None , ) ; bool ; True
[ ] ; bool ; False
[ 0 ] ; bool ; True
{ } ; bool ; False
{ 0 : 0 } ; bool ; True
";

/// Whether a value counts as a row says.
pub(crate) fn counts_as(value: &Value, answer: &str) -> bool {
    truthy(value) == (answer == "True")
}

#[test]
fn values_have_their_truth(rt: HostRuntime) {
    each_row_holds(&rt, rt.alloc(), TRUTH, 15);
}

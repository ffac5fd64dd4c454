use super::{applied, cell, value_of, written};
use std::alloc::Global;
use tx_text::NoMemory;
use tx_values::{OpError, Value, weight};

// At the limits of weight and depth: two operands and their operator, and the weight of the result or the class. Weight and
// depth are rules of the language alone.
const LIMITS: &str = "
~1048575 ; + ; 'a' ; 1048576
~1048576 ; + ; '' ; 1048576
~1048576 ; + ; 'a' ; ProfileError
~1048576 ; + ; 1 ; TypeError
~524288 ; * ; 2 ; 1048576
~524289 ; * ; 2 ; ProfileError
~1048576 ; * ; -1 ; 0
~1048576 ; * ; 1 ; 1048576
~1048576 ; * ; 9223372036854775807 ; ProfileError
~1048576 ; * ; 9223372036854775808 ; OverflowError
'x' ; * ; 1048576 ; 1048576
'x' ; * ; 1048577 ; ProfileError
( ~1048574 , ) ; + ; ( 1 , ) ; 1048576
( ~1048575 , ) ; + ; ( ) ; 1048576
( ~1048575 , ) ; + ; ( 1 , ) ; ProfileError
( ) ; + ; ( ~1048575 , ) ; 1048576
[ ~700000 , ~300000 ] ; + ; [ ~48573 ] ; 1048576
[ ~700000 , ~300000 ] ; + ; [ ~48574 ] ; ProfileError
[ ~700000 ] ; + ; ( ~700000 , ) ; TypeError
[ ~524287 ] ; * ; 2 ; 1048576
[ ~524287 ] ; * ; 3 ; ProfileError
[ 0 ] ; * ; 524289 ; 524289
[ 0 ] ; * ; 1048576 ; 1048576
[ 0 ] ; * ; 1048577 ; ProfileError
[ 0 ] ; * ; 1152921504606846976 ; ProfileError
[ [ 0 ] ] ; * ; 524288 ; 1048576
[ [ 0 ] ] ; * ; 524289 ; ProfileError
9223372036854775807 ; * ; [ [ 0 ] ] ; ProfileError
( { 'k' : ( 1 , ) } , ) ; * ; 262144 ; 1048576
( { 'k' : ( 1 , ) } , ) ; * ; 262145 ; ProfileError
[ [ [ [ [ [ [ [ [ [ [ [ [ [ [ [ ] ] ] ] ] ] ] ] ] ] ] ] ] ] ] ] ; + ; [ ] ; 15
[ [ [ [ [ [ [ [ [ [ [ [ [ [ [ [ ] ] ] ] ] ] ] ] ] ] ] ] ] ] ] ] ; * ; 2 ; 30
( ( ( ( ( ( ( ( ( ( ( ( ( ( ( ( ) , ) , ) , ) , ) , ) , ) , ) , ) , ) , ) , ) , ) , ) , ) , ) ; * ; 0 ; 0
~1048576 ; [] ; -1 ; 1
[ ~1048575 ] ; [] ; 0 ; 1048575
{ 'k' : ~1048574 } ; [] ; 'k' ; 1048574";

// The weight of a result, as an integer.
fn weighed(answer: Result<Value, OpError>) -> Result<Value, OpError> {
    Ok(Value::Int(weight(&answer?) as i128))
}

fn holds(alloc: Global, row: &str) -> Result<bool, NoMemory> {
    let a = value_of(alloc, cell(row, 0))?;
    let b = value_of(alloc, cell(row, 2))?;
    let answer = written(alloc, weighed(applied(alloc, cell(row, 1), &a, &b)))?;
    Ok(answer.as_str() == cell(row, 3))
}

#[test]
fn results_end_at_the_limits(rt: HostRuntime) {
    let mut rows = 0usize;
    for row in LIMITS.lines().skip(1) {
        assert!(rt; holds(rt.alloc(), row) == Ok(true), "{row}");
        rows = rows.wrapping_add(1);
    }
    assert!(rt; rows == 36);
}

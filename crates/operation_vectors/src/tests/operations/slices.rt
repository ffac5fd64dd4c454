use super::{cell, value_of, written};
use std::alloc::Global;
use tx_ops::slice;
use tx_text::NoMemory;
use tx_values::Value;

// Slices: the sequence, the two bounds, and the answer. A bound of `-` is absent; others are None, negative, out of range on
// each side, truth values, and of a wrong kind.
const SLICES: &str = "
'abcde' ; - ; - ; 'abcde'
'abcde' ; 1 ; 3 ; 'bc'
'abcde' ; 1 ; 9 ; 'bcde'
'abcde' ; -9 ; 2 ; 'ab'
'abcde' ; -2 ; - ; 'de'
'abcde' ; - ; -2 ; 'abc'
'abcde' ; None ; None ; 'abcde'
'abcde' ; None ; 2 ; 'ab'
'abcde' ; 2 ; None ; 'cde'
'abcde' ; 3 ; 1 ; ''
'abcde' ; 5 ; - ; ''
'abcde' ; 9 ; - ; ''
'abcde' ; -1 ; -3 ; ''
'abcde' ; True ; - ; 'bcde'
'abcde' ; - ; True ; 'a'
'abcde' ; False ; True ; 'a'
'abcde' ; -170141183460469231731687303715884105728 ; 170141183460469231731687303715884105727 ; 'abcde'
'abcde' ; 170141183460469231731687303715884105727 ; -170141183460469231731687303715884105728 ; ''
'abcde' ; - ; -170141183460469231731687303715884105728 ; ''
'abcde' ; 18446744073709551616 ; - ; ''
'abcde' ; - ; 18446744073709551616 ; 'abcde'
'abcde' ; -18446744073709551616 ; -9223372036854775808 ; ''
'abcde' ; 'x' ; - ; TypeError
'abcde' ; - ; 'x' ; TypeError
'abcde' ; [ ] ; 1 ; TypeError
'abcde' ; 0 ; ( ) ; TypeError
( 0 , 1 , 2 , 3 , 4 ) ; - ; - ; ( 0 , 1 , 2 , 3 , 4 )
( 0 , 1 , 2 , 3 , 4 ) ; 1 ; 3 ; ( 1 , 2 )
( 0 , 1 , 2 , 3 , 4 ) ; 1 ; 9 ; ( 1 , 2 , 3 , 4 )
( 0 , 1 , 2 , 3 , 4 ) ; -9 ; 2 ; ( 0 , 1 )
( 0 , 1 , 2 , 3 , 4 ) ; -2 ; - ; ( 3 , 4 )
( 0 , 1 , 2 , 3 , 4 ) ; - ; -2 ; ( 0 , 1 , 2 )
( 0 , 1 , 2 , 3 , 4 ) ; None ; None ; ( 0 , 1 , 2 , 3 , 4 )
( 0 , 1 , 2 , 3 , 4 ) ; None ; 2 ; ( 0 , 1 )
( 0 , 1 , 2 , 3 , 4 ) ; 2 ; None ; ( 2 , 3 , 4 )
( 0 , 1 , 2 , 3 , 4 ) ; 3 ; 1 ; ( )
( 0 , 1 , 2 , 3 , 4 ) ; 5 ; - ; ( )
( 0 , 1 , 2 , 3 , 4 ) ; 9 ; - ; ( )
( 0 , 1 , 2 , 3 , 4 ) ; -1 ; -3 ; ( )
( 0 , 1 , 2 , 3 , 4 ) ; True ; - ; ( 1 , 2 , 3 , 4 )
( 0 , 1 , 2 , 3 , 4 ) ; - ; True ; ( 0 , )
( 0 , 1 , 2 , 3 , 4 ) ; False ; True ; ( 0 , )
( 0 , 1 , 2 , 3 , 4 ) ; -170141183460469231731687303715884105728 ; 170141183460469231731687303715884105727 ; ( 0 , 1 , 2 , 3 , 4 )
( 0 , 1 , 2 , 3 , 4 ) ; 170141183460469231731687303715884105727 ; -170141183460469231731687303715884105728 ; ( )
( 0 , 1 , 2 , 3 , 4 ) ; - ; -170141183460469231731687303715884105728 ; ( )
( 0 , 1 , 2 , 3 , 4 ) ; 18446744073709551616 ; - ; ( )
( 0 , 1 , 2 , 3 , 4 ) ; - ; 18446744073709551616 ; ( 0 , 1 , 2 , 3 , 4 )
( 0 , 1 , 2 , 3 , 4 ) ; -18446744073709551616 ; -9223372036854775808 ; ( )
( 0 , 1 , 2 , 3 , 4 ) ; 'x' ; - ; TypeError
( 0 , 1 , 2 , 3 , 4 ) ; - ; 'x' ; TypeError
( 0 , 1 , 2 , 3 , 4 ) ; [ ] ; 1 ; TypeError
( 0 , 1 , 2 , 3 , 4 ) ; 0 ; ( ) ; TypeError
[ 0 , 1 , 2 , 3 , 4 ] ; - ; - ; [ 0 , 1 , 2 , 3 , 4 ]
[ 0 , 1 , 2 , 3 , 4 ] ; 1 ; 3 ; [ 1 , 2 ]
[ 0 , 1 , 2 , 3 , 4 ] ; 1 ; 9 ; [ 1 , 2 , 3 , 4 ]
[ 0 , 1 , 2 , 3 , 4 ] ; -9 ; 2 ; [ 0 , 1 ]
[ 0 , 1 , 2 , 3 , 4 ] ; -2 ; - ; [ 3 , 4 ]
[ 0 , 1 , 2 , 3 , 4 ] ; - ; -2 ; [ 0 , 1 , 2 ]
[ 0 , 1 , 2 , 3 , 4 ] ; None ; None ; [ 0 , 1 , 2 , 3 , 4 ]
[ 0 , 1 , 2 , 3 , 4 ] ; None ; 2 ; [ 0 , 1 ]
[ 0 , 1 , 2 , 3 , 4 ] ; 2 ; None ; [ 2 , 3 , 4 ]
[ 0 , 1 , 2 , 3 , 4 ] ; 3 ; 1 ; [ ]
[ 0 , 1 , 2 , 3 , 4 ] ; 5 ; - ; [ ]
[ 0 , 1 , 2 , 3 , 4 ] ; 9 ; - ; [ ]
[ 0 , 1 , 2 , 3 , 4 ] ; -1 ; -3 ; [ ]
[ 0 , 1 , 2 , 3 , 4 ] ; True ; - ; [ 1 , 2 , 3 , 4 ]
[ 0 , 1 , 2 , 3 , 4 ] ; - ; True ; [ 0 ]
[ 0 , 1 , 2 , 3 , 4 ] ; False ; True ; [ 0 ]
[ 0 , 1 , 2 , 3 , 4 ] ; -170141183460469231731687303715884105728 ; 170141183460469231731687303715884105727 ; [ 0 , 1 , 2 , 3 , 4 ]
[ 0 , 1 , 2 , 3 , 4 ] ; 170141183460469231731687303715884105727 ; -170141183460469231731687303715884105728 ; [ ]
[ 0 , 1 , 2 , 3 , 4 ] ; - ; -170141183460469231731687303715884105728 ; [ ]
[ 0 , 1 , 2 , 3 , 4 ] ; 18446744073709551616 ; - ; [ ]
[ 0 , 1 , 2 , 3 , 4 ] ; - ; 18446744073709551616 ; [ 0 , 1 , 2 , 3 , 4 ]
[ 0 , 1 , 2 , 3 , 4 ] ; -18446744073709551616 ; -9223372036854775808 ; [ ]
[ 0 , 1 , 2 , 3 , 4 ] ; 'x' ; - ; TypeError
[ 0 , 1 , 2 , 3 , 4 ] ; - ; 'x' ; TypeError
[ 0 , 1 , 2 , 3 , 4 ] ; [ ] ; 1 ; TypeError
[ 0 , 1 , 2 , 3 , 4 ] ; 0 ; ( ) ; TypeError
'' ; - ; - ; ''
'' ; 1 ; 2 ; ''
( ) ; 0 ; 1 ; ( )
[ ] ; -1 ; - ; [ ]
'aé😀z' ; 1 ; 3 ; 'é😀'
'aé😀z' ; -2 ; - ; '😀z'
[ [ 1 ] , { 'a' : 2 } ] ; 1 ; - ; [ { 'a' : 2 } ]
{ } ; - ; - ; ProfileError
{ 1 : 2 } ; 0 ; 1 ; ProfileError
{ } ; 'x' ; - ; ProfileError
None ; 0 ; 1 ; TypeError
True ; - ; - ; TypeError
5 ; 0 ; 1 ; TypeError
5 ; 'x' ; - ; TypeError
None ; - ; - ; TypeError";

fn bound_of(alloc: Global, cell: &str) -> Result<Option<Value>, NoMemory> {
    match cell {
        "-" => Ok(None),
        _ => Ok(Some(value_of(alloc, cell)?)),
    }
}

fn holds(alloc: Global, row: &str) -> Result<bool, NoMemory> {
    let base = value_of(alloc, cell(row, 0))?;
    let from = bound_of(alloc, cell(row, 1))?;
    let to = bound_of(alloc, cell(row, 2))?;
    let answer = written(alloc, slice(alloc, &base, from.as_ref(), to.as_ref()))?;
    Ok(answer.as_str() == cell(row, 3))
}

#[test]
fn slices_are_clamped(rt: HostRuntime) {
    let mut rows = 0usize;
    for row in SLICES.lines().skip(1) {
        assert!(rt; holds(rt.alloc(), row) == Ok(true), "{row}");
        rows = rows.wrapping_add(1);
    }
    assert!(rt; rows == 93);
}

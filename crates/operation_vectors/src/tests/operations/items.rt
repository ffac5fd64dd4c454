use super::each_row_holds;
use std::test::Fail;

// Indexes: from the front, from the end, past both, truth values, keys.
const ITEMS: &str = "
'abc' ; [] ; 0 ; 'a'
'abc' ; [] ; 2 ; 'c'
'abc' ; [] ; -1 ; 'c'
'abc' ; [] ; -3 ; 'a'
'abc' ; [] ; 3 ; IndexError
'abc' ; [] ; -4 ; IndexError
'abc' ; [] ; True ; 'b'
'abc' ; [] ; False ; 'a'
'abc' ; [] ; 'x' ; TypeError
'abc' ; [] ; None ; TypeError
'abc' ; [] ; [ ] ; TypeError
'' ; [] ; 0 ; IndexError
'' ; [] ; -1 ; IndexError
'aé😀' ; [] ; 1 ; 'é'
'aé😀' ; [] ; -1 ; '😀'
'abc' ; [] ; 170141183460469231731687303715884105727 ; IndexError
'abc' ; [] ; -170141183460469231731687303715884105728 ; IndexError
'abc' ; [] ; 18446744073709551616 ; IndexError
'abc' ; [] ; -18446744073709551616 ; IndexError
'abc' ; [] ; 9223372036854775808 ; IndexError
( 1 , 2 ) ; [] ; 0 ; 1
( 1 , 2 ) ; [] ; -1 ; 2
( 1 , 2 ) ; [] ; 2 ; IndexError
( 1 , 2 ) ; [] ; -2 ; 1
( 1 , 2 ) ; [] ; -3 ; IndexError
( 1 , 2 ) ; [] ; True ; 2
( ) ; [] ; 0 ; IndexError
( 1 , [ 2 ] ) ; [] ; 1 ; [ 2 ]
( 1 , 2 ) ; [] ; '0' ; TypeError
( 1 , 2 ) ; [] ; ( 0 , ) ; TypeError
[ 1 , 'b' ] ; [] ; 1 ; 'b'
[ 1 , 'b' ] ; [] ; -2 ; 1
[ 1 , 'b' ] ; [] ; False ; 1
[ ] ; [] ; -170141183460469231731687303715884105728 ; IndexError
[ True ] ; [] ; 0 ; True
[ True ] ; [] ; None ; TypeError
[ 1 ] ; [] ; 170141183460469231731687303715884105727 ; IndexError
{ 1 : 'a' } ; [] ; 1 ; 'a'
{ 1 : 'a' } ; [] ; True ; 'a'
{ True : 'a' } ; [] ; 1 ; 'a'
{ 0 : 'a' } ; [] ; False ; 'a'
{ 'k' : [ 1 ] } ; [] ; 'k' ; [ 1 ]
{ 'k' : 1 } ; [] ; 'l' ; KeyError
{ 'k' : 1 } ; [] ; 0 ; KeyError
{ } ; [] ; None ; KeyError
{ None : 2 } ; [] ; None ; 2
{ ( 1 , 'a' ) : 3 } ; [] ; ( True , 'a' ) ; 3
{ ( 1 , 'a' ) : 3 } ; [] ; ( 1 , 'b' ) ; KeyError
{ } ; [] ; [ ] ; TypeError
{ 1 : 2 } ; [] ; { } ; TypeError
{ 1 : 2 } ; [] ; ( [ ] , ) ; TypeError
{ ( 1 , ) : 2 } ; [] ; ( 1 , [ ] ) ; TypeError
{ 1 : 'a' , 2 : 'b' , 3 : 'c' } ; [] ; 3 ; 'c'
None ; [] ; 0 ; TypeError
True ; [] ; 0 ; TypeError
5 ; [] ; 0 ; TypeError
5 ; [] ; 'a' ; TypeError
None ; [] ; None ; TypeError";

#[test]
fn items_are_found(rt: HostRuntime) -> Result<(), Fail> {
    each_row_holds(&rt, rt.alloc(), ITEMS, 58)
}

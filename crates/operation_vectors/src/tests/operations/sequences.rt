use super::each_row_holds;
use std::test::Fail;

// Membership, with keys that are equal and such that can be none.
const MEMBERS: &str = "
True ; in ; [ 1 ] ; True
1 ; in ; ( True , ) ; True
'' ; in ; 'ab' ; True
'b' ; in ; 'ab' ; True
'ba' ; in ; 'ab' ; False
'abc' ; in ; 'ab' ; False
'' ; in ; '' ; True
'é' ; in ; 'café' ; True
1 ; in ; 'ab' ; TypeError
None ; in ; 'ab' ; TypeError
( ) ; in ; 'ab' ; TypeError
[ ] ; in ; { } ; TypeError
{ } ; in ; { } ; TypeError
( [ ] , ) ; in ; { } ; TypeError
( 1 , [ ] ) ; in ; { 1 : 2 } ; TypeError
1 ; in ; { True : 'a' } ; True
True ; in ; { 1 : 'a' } ; True
'1' ; in ; { 1 : 'a' } ; False
None ; in ; { None : 1 } ; True
( 1 , 'a' ) ; in ; { ( True , 'a' ) : 0 } ; True
( 1 , ) ; in ; { 1 : 0 } ; False
[ 1 ] ; in ; [ [ True ] ] ; True
{ 'a' : 1 } ; in ; [ { 'a' : True } ] ; True
[ ] ; in ; [ ] ; False
[ ] ; in ; [ [ ] ] ; True
None ; in ; [ 0 , '' ] ; False
None ; in ; [ None ] ; True
1 ; in ; 2 ; TypeError
1 ; in ; None ; TypeError
'a' ; in ; True ; TypeError
2 ; in ; [ 1 , 2 , 3 ] ; True
'b' ; in ; [ 'a' , 'b' ] ; True
'a' ; in ; [ 'ab' ] ; False
1 ; not_in ; [ 1 ] ; False
'a' ; not_in ; 'b' ; True
1 ; not_in ; 'a' ; TypeError
[ ] ; not_in ; { } ; TypeError
1 ; not_in ; { 2 : 3 } ; True
0 ; not_in ; None ; TypeError";

#[test]
fn members_are_found(rt: HostRuntime) -> Result<(), Fail> {
    each_row_holds(&rt, rt.alloc(), MEMBERS, 39)
}

// Sequences joined and repeated.
const JOINED: &str = "
'' ; + ; '' ; ''
'ab' ; + ; 'c' ; 'abc'
'é' ; + ; '😀' ; 'é😀'
( ) ; + ; ( ) ; ( )
( 1 , ) ; + ; ( 2 , ( 3 , ) ) ; ( 1 , 2 , ( 3 , ) )
[ ] ; + ; [ 1 ] ; [ 1 ]
[ [ ] ] ; + ; [ { } ] ; [ [ ] , { } ]
'a' ; + ; 1 ; TypeError
1 ; + ; 'a' ; TypeError
[ 1 ] ; + ; ( 1 , ) ; TypeError
( 1 , ) ; + ; [ 1 ] ; TypeError
'a' ; + ; [ 'a' ] ; TypeError
{ } ; + ; { } ; TypeError
'ab' ; * ; 2 ; 'abab'
'ab' ; * ; True ; 'ab'
'ab' ; * ; False ; ''
'ab' ; * ; 0 ; ''
'ab' ; * ; -1 ; ''
3 ; * ; 'ab' ; 'ababab'
-3 ; * ; 'ab' ; ''
True ; * ; 'ab' ; 'ab'
( ) ; * ; 5 ; ( )
( 1 , 'a' ) ; * ; 2 ; ( 1 , 'a' , 1 , 'a' )
2 ; * ; ( 1 , 'a' ) ; ( 1 , 'a' , 1 , 'a' )
[ [ ] ] ; * ; 3 ; [ [ ] , [ ] , [ ] ]
0 ; * ; [ 1 ] ; [ ]
[ 1 ] ; * ; -9223372036854775808 ; [ ]
'' ; * ; 9223372036854775807 ; ''
( ) ; * ; 9223372036854775807 ; ( )
[ ] ; * ; 9223372036854775807 ; [ ]
9223372036854775807 ; * ; '' ; ''
'a' ; * ; 9223372036854775808 ; OverflowError
'a' ; * ; -9223372036854775809 ; OverflowError
'' ; * ; 9223372036854775808 ; OverflowError
[ ] ; * ; 9223372036854775808 ; OverflowError
( ) ; * ; -9223372036854775809 ; OverflowError
9223372036854775808 ; * ; 'a' ; OverflowError
-9223372036854775809 ; * ; [ 0 ] ; OverflowError
[ 0 ] ; * ; 170141183460469231731687303715884105727 ; OverflowError
-170141183460469231731687303715884105728 ; * ; ( 0 , ) ; OverflowError
[ 0 ] ; * ; 1152921504606846976 ; ProfileError
'x' ; * ; 4611686018427387904 ; ProfileError
'x' ; * ; 1048577 ; ProfileError
'xy' ; * ; 524289 ; ProfileError
[ 0 ] ; * ; 1048577 ; ProfileError
[ [ 0 ] ] ; * ; 524289 ; ProfileError
( 'ab' , ) ; * ; 349526 ; ProfileError
None ; * ; 9223372036854775808 ; TypeError
{ } ; * ; 9223372036854775808 ; TypeError
9223372036854775808 ; * ; None ; TypeError
'a' ; * ; 'b' ; TypeError
[ 1 ] ; * ; 'a' ; TypeError
None ; * ; 2 ; TypeError
{ } ; * ; 2 ; TypeError
'%s' ; % ; 1 ; ProfileError
'' ; % ; None ; ProfileError
'%d' ; % ; ( ) ; ProfileError
'a' ; % ; { } ; ProfileError
( 1 , ) ; % ; 2 ; TypeError
1 ; % ; 'a' ; TypeError
[ ] ; % ; 2 ; TypeError";

#[test]
fn sequences_are_joined_and_repeated(rt: HostRuntime) -> Result<(), Fail> {
    each_row_holds(&rt, rt.alloc(), JOINED, 61)
}

use super::each_row_holds;
use std::test::Fail;

// Truth values and integers, and both ends of 128 bits.
const NUMBERS: &str = "
True ; + ; True ; 2
True ; - ; True ; 0
True ; * ; True ; 1
True ; // ; True ; 1
True ; % ; True ; 0
True ; + ; False ; 1
True ; - ; False ; 1
True ; * ; False ; 0
True ; // ; False ; ZeroDivisionError
True ; % ; False ; ZeroDivisionError
True ; + ; 2 ; 3
True ; - ; 2 ; -1
True ; * ; 2 ; 2
True ; // ; 2 ; 0
True ; % ; 2 ; 1
True ; + ; -2 ; -1
True ; - ; -2 ; 3
True ; * ; -2 ; -2
True ; // ; -2 ; -1
True ; % ; -2 ; -1
False ; + ; True ; 1
False ; - ; True ; -1
False ; * ; True ; 0
False ; // ; True ; 0
False ; % ; True ; 0
False ; + ; False ; 0
False ; - ; False ; 0
False ; * ; False ; 0
False ; // ; False ; ZeroDivisionError
False ; % ; False ; ZeroDivisionError
False ; + ; 2 ; 2
False ; - ; 2 ; -2
False ; * ; 2 ; 0
False ; // ; 2 ; 0
False ; % ; 2 ; 0
False ; + ; -2 ; -2
False ; - ; -2 ; 2
False ; * ; -2 ; 0
False ; // ; -2 ; 0
False ; % ; -2 ; 0
7 ; // ; 2 ; 3
-7 ; // ; 2 ; -4
7 ; // ; -2 ; -4
-7 ; // ; -2 ; 3
0 ; // ; -5 ; 0
5 ; // ; False ; ZeroDivisionError
7 ; // ; True ; 7
1 ; // ; 3 ; 0
-1 ; // ; 3 ; -1
6 ; // ; -3 ; -2
7 ; % ; 2 ; 1
-7 ; % ; 2 ; 1
7 ; % ; -2 ; -1
-7 ; % ; -2 ; -1
0 ; % ; -5 ; 0
5 ; % ; False ; ZeroDivisionError
7 ; % ; True ; 0
1 ; % ; 3 ; 1
-1 ; % ; 3 ; 2
6 ; % ; -3 ; 0
170141183460469231731687303715884105727 ; + ; 0 ; 170141183460469231731687303715884105727
170141183460469231731687303715884105727 ; + ; True ; OverflowError
170141183460469231731687303715884105727 ; + ; 1 ; OverflowError
-170141183460469231731687303715884105728 ; + ; -1 ; OverflowError
-170141183460469231731687303715884105728 ; + ; 170141183460469231731687303715884105727 ; -1
-170141183460469231731687303715884105728 ; - ; 1 ; OverflowError
-170141183460469231731687303715884105728 ; - ; True ; OverflowError
-1 ; - ; -170141183460469231731687303715884105728 ; 170141183460469231731687303715884105727
0 ; - ; -170141183460469231731687303715884105728 ; OverflowError
-170141183460469231731687303715884105728 ; * ; -1 ; OverflowError
170141183460469231731687303715884105727 ; * ; -1 ; -170141183460469231731687303715884105727
85070591730234615865843651857942052864 ; * ; 2 ; OverflowError
-85070591730234615865843651857942052864 ; * ; 2 ; -170141183460469231731687303715884105728
18446744073709551616 ; * ; 9223372036854775808 ; OverflowError
18446744073709551616 ; * ; -9223372036854775808 ; -170141183460469231731687303715884105728
-170141183460469231731687303715884105728 ; * ; True ; -170141183460469231731687303715884105728
-170141183460469231731687303715884105728 ; * ; False ; 0
-170141183460469231731687303715884105728 ; // ; -1 ; OverflowError
-170141183460469231731687303715884105728 ; // ; 1 ; -170141183460469231731687303715884105728
170141183460469231731687303715884105727 ; // ; -170141183460469231731687303715884105728 ; -1
-170141183460469231731687303715884105728 ; // ; 0 ; ZeroDivisionError
-170141183460469231731687303715884105728 ; // ; 2 ; -85070591730234615865843651857942052864
-170141183460469231731687303715884105728 ; % ; -1 ; 0
170141183460469231731687303715884105727 ; % ; -170141183460469231731687303715884105728 ; -1
-170141183460469231731687303715884105728 ; % ; 170141183460469231731687303715884105727 ; 170141183460469231731687303715884105726
-170141183460469231731687303715884105728 ; % ; 0 ; ZeroDivisionError
-170141183460469231731687303715884105728 ; % ; 3 ; 1
True ; neg ; None ; -1
True ; pos ; None ; 1
False ; neg ; None ; 0
False ; pos ; None ; 0
0 ; neg ; None ; 0
0 ; pos ; None ; 0
5 ; neg ; None ; -5
5 ; pos ; None ; 5
170141183460469231731687303715884105727 ; neg ; None ; -170141183460469231731687303715884105727
170141183460469231731687303715884105727 ; pos ; None ; 170141183460469231731687303715884105727
-170141183460469231731687303715884105728 ; neg ; None ; OverflowError
-170141183460469231731687303715884105728 ; pos ; None ; -170141183460469231731687303715884105728
-170141183460469231731687303715884105727 ; neg ; None ; 170141183460469231731687303715884105727
-170141183460469231731687303715884105727 ; pos ; None ; -170141183460469231731687303715884105727
None ; neg ; None ; TypeError
None ; pos ; None ; TypeError
'a' ; neg ; None ; TypeError
'a' ; pos ; None ; TypeError
( ) ; neg ; None ; TypeError
( ) ; pos ; None ; TypeError
[ ] ; neg ; None ; TypeError
[ ] ; pos ; None ; TypeError
{ } ; neg ; None ; TypeError
{ } ; pos ; None ; TypeError";

#[test]
fn numbers_are_computed(rt: HostRuntime) -> Result<(), Fail> {
    each_row_holds(&rt, rt.alloc(), NUMBERS, 111)
}

// Comparisons: equality, order, and what is None.
const COMPARED: &str = "
1 ; == ; True ; True
0 ; == ; False ; True
1 ; == ; 2 ; False
'a' ; == ; 'a' ; True
'a' ; == ; 'b' ; False
( ) ; == ; [ ] ; False
[ ] ; == ; [ ] ; True
[ 1 ] ; == ; [ True ] ; True
{ 'a' : 1 } ; == ; { 'a' : True } ; True
{ 'a' : 1 , 'b' : 2 } ; == ; { 'b' : 2 , 'a' : 1 } ; True
None ; == ; None ; True
None ; == ; 0 ; False
{ } ; == ; None ; False
-170141183460469231731687303715884105728 ; == ; 170141183460469231731687303715884105727 ; False
1 ; != ; True ; False
'a' ; != ; 'a' ; False
[ ] ; != ; ( ) ; True
1 ; < ; 2 ; True
2 ; < ; 1 ; False
True ; < ; 1 ; False
False ; < ; 1 ; True
-170141183460469231731687303715884105728 ; < ; 170141183460469231731687303715884105727 ; True
170141183460469231731687303715884105727 ; < ; 170141183460469231731687303715884105727 ; False
'a' ; < ; 'b' ; True
'ab' ; < ; 'a' ; False
'' ; < ; '' ; False
'é' ; < ; 'z' ; False
( 1 , 2 ) ; < ; ( 1 , 2 , 0 ) ; True
( 1 , 2 ) ; < ; ( 1 , 2 ) ; False
[ 2 ] ; < ; [ 1 , 5 ] ; False
[ ] ; < ; [ 0 ] ; True
( 1 , 'a' ) ; < ; ( 1 , 2 ) ; TypeError
( True , 0 ) ; < ; ( 1 , 0 ) ; False
( 1 , ( 2 , 'a' ) ) ; < ; ( 1 , ( 2 , 'b' ) ) ; True
[ 1 ] ; < ; ( 1 , ) ; TypeError
None ; < ; None ; TypeError
{ } ; < ; { } ; TypeError
( None , 1 ) ; < ; ( None , 2 ) ; True
( None , ) ; < ; ( 1 , ) ; TypeError
( [ ] , ) ; < ; ( [ ] , ) ; False
1 ; < ; '1' ; TypeError
'1' ; < ; 1 ; TypeError
1 ; <= ; 2 ; True
2 ; <= ; 1 ; False
True ; <= ; 1 ; True
False ; <= ; 1 ; True
-170141183460469231731687303715884105728 ; <= ; 170141183460469231731687303715884105727 ; True
170141183460469231731687303715884105727 ; <= ; 170141183460469231731687303715884105727 ; True
'a' ; <= ; 'b' ; True
'ab' ; <= ; 'a' ; False
'' ; <= ; '' ; True
'é' ; <= ; 'z' ; False
( 1 , 2 ) ; <= ; ( 1 , 2 , 0 ) ; True
( 1 , 2 ) ; <= ; ( 1 , 2 ) ; True
[ 2 ] ; <= ; [ 1 , 5 ] ; False
[ ] ; <= ; [ 0 ] ; True
( 1 , 'a' ) ; <= ; ( 1 , 2 ) ; TypeError
( True , 0 ) ; <= ; ( 1 , 0 ) ; True
( 1 , ( 2 , 'a' ) ) ; <= ; ( 1 , ( 2 , 'b' ) ) ; True
[ 1 ] ; <= ; ( 1 , ) ; TypeError
None ; <= ; None ; TypeError
{ } ; <= ; { } ; TypeError
( None , 1 ) ; <= ; ( None , 2 ) ; True
( None , ) ; <= ; ( 1 , ) ; TypeError
( [ ] , ) ; <= ; ( [ ] , ) ; True
1 ; <= ; '1' ; TypeError
'1' ; <= ; 1 ; TypeError
1 ; > ; 2 ; False
2 ; > ; 1 ; True
True ; > ; 1 ; False
False ; > ; 1 ; False
-170141183460469231731687303715884105728 ; > ; 170141183460469231731687303715884105727 ; False
170141183460469231731687303715884105727 ; > ; 170141183460469231731687303715884105727 ; False
'a' ; > ; 'b' ; False
'ab' ; > ; 'a' ; True
'' ; > ; '' ; False
'é' ; > ; 'z' ; True
( 1 , 2 ) ; > ; ( 1 , 2 , 0 ) ; False
( 1 , 2 ) ; > ; ( 1 , 2 ) ; False
[ 2 ] ; > ; [ 1 , 5 ] ; True
[ ] ; > ; [ 0 ] ; False
( 1 , 'a' ) ; > ; ( 1 , 2 ) ; TypeError
( True , 0 ) ; > ; ( 1 , 0 ) ; False
( 1 , ( 2 , 'a' ) ) ; > ; ( 1 , ( 2 , 'b' ) ) ; False
[ 1 ] ; > ; ( 1 , ) ; TypeError
None ; > ; None ; TypeError
{ } ; > ; { } ; TypeError
( None , 1 ) ; > ; ( None , 2 ) ; False
( None , ) ; > ; ( 1 , ) ; TypeError
( [ ] , ) ; > ; ( [ ] , ) ; False
1 ; > ; '1' ; TypeError
'1' ; > ; 1 ; TypeError
1 ; >= ; 2 ; False
2 ; >= ; 1 ; True
True ; >= ; 1 ; True
False ; >= ; 1 ; False
-170141183460469231731687303715884105728 ; >= ; 170141183460469231731687303715884105727 ; False
170141183460469231731687303715884105727 ; >= ; 170141183460469231731687303715884105727 ; True
'a' ; >= ; 'b' ; False
'ab' ; >= ; 'a' ; True
'' ; >= ; '' ; True
'é' ; >= ; 'z' ; True
( 1 , 2 ) ; >= ; ( 1 , 2 , 0 ) ; False
( 1 , 2 ) ; >= ; ( 1 , 2 ) ; True
[ 2 ] ; >= ; [ 1 , 5 ] ; True
[ ] ; >= ; [ 0 ] ; False
( 1 , 'a' ) ; >= ; ( 1 , 2 ) ; TypeError
( True , 0 ) ; >= ; ( 1 , 0 ) ; True
( 1 , ( 2 , 'a' ) ) ; >= ; ( 1 , ( 2 , 'b' ) ) ; False
[ 1 ] ; >= ; ( 1 , ) ; TypeError
None ; >= ; None ; TypeError
{ } ; >= ; { } ; TypeError
( None , 1 ) ; >= ; ( None , 2 ) ; False
( None , ) ; >= ; ( 1 , ) ; TypeError
( [ ] , ) ; >= ; ( [ ] , ) ; True
1 ; >= ; '1' ; TypeError
'1' ; >= ; 1 ; TypeError
None ; is ; None ; True
None ; is_not ; None ; False
0 ; is ; None ; False
0 ; is_not ; None ; True
False ; is ; None ; False
False ; is_not ; None ; True
'' ; is ; None ; False
'' ; is_not ; None ; True
( ) ; is ; None ; False
( ) ; is_not ; None ; True
[ ] ; is ; None ; False
[ ] ; is_not ; None ; True
{ } ; is ; None ; False
{ } ; is_not ; None ; True";

#[test]
fn values_are_compared(rt: HostRuntime) -> Result<(), Fail> {
    each_row_holds(&rt, rt.alloc(), COMPARED, 131)
}

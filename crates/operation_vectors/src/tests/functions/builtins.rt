use super::{args_at, cell, is_due};
use std::alloc::Global;
use tx_methods::{builtin, builtin_of_one};
use tx_text::NoMemory;
use tx_tree::builtin_named;

// A built-in function, its arguments, and its answer.
const BUILTINS: &str = "
int ; [ '␣+1_000␣' ] ; 1000
int ; [ '007' ] ; 7
int ; [ '1__0' ] ; ValueError
int ; [ '' ] ; ValueError
int ; [ '1.5' ] ; ValueError
int ; [ '\u{663}' ] ; ProfileError
int ; [ '170141183460469231731687303715884105728' ] ; OverflowError
int ; [ '-170141183460469231731687303715884105728' ] ; -170141183460469231731687303715884105728
int ; [ None ] ; TypeError
int ; [ [ ] ] ; TypeError
int ; [ '\u{1c}1' ] ; ProfileError
max ; [ [ True , 1 ] ] ; True
max ; [ [ 1 , True ] ] ; 1
max ; [ [ ] ] ; ValueError
sum ; [ [ ] ] ; 0
sum ; [ [ 'a' ] ] ; TypeError
len ; [ None ] ; TypeError
len ; [ True ] ; TypeError
len ; [ 7 ] ; TypeError
len ; [ '' ] ; 0
len ; [ 'a\u{df}\u{20ac}' ] ; 3
len ; [ '\u{1d11e}' ] ; 1
len ; [ ( ) ] ; 0
len ; [ ( 1 , 'a' ) ] ; 2
len ; [ [ ] ] ; 0
len ; [ [ [ ] , ( ) ] ] ; 2
len ; [ { } ] ; 0
len ; [ { 'a' : 1 , 2 : [ ] } ] ; 2
int ; [ True ] ; 1
int ; [ False ] ; 0
int ; [ 0 ] ; 0
int ; [ -5 ] ; -5
int ; [ 170141183460469231731687303715884105727 ] ; 170141183460469231731687303715884105727
int ; [ -170141183460469231731687303715884105728 ] ; -170141183460469231731687303715884105728
int ; [ '␣12␣' ] ; 12
int ; [ '-12' ] ; -12
int ; [ '+0' ] ; 0
int ; [ '1␣2' ] ; ValueError
int ; [ '1_' ] ; ValueError
int ; [ '_1' ] ; ValueError
int ; [ '0x1' ] ; ValueError
int ; [ '\u{bd}' ] ; ValueError
int ; [ '\u{b2}' ] ; ValueError
int ; [ '\u{a0}7\u{3000}' ] ; 7
int ; [ ( ) ] ; TypeError
int ; [ ( 1 , ) ] ; TypeError
int ; [ { } ] ; TypeError
int ; [ { 1 : 2 } ] ; TypeError
int ; [ '1\u{1f}' ] ; ProfileError
int ; [ 'a\u{663}' ] ; ProfileError
int ; [ '999999999999999999999999999999999999999999999999999999999999' ] ; OverflowError
str ; [ None ] ; 'None'
str ; [ True ] ; 'True'
str ; [ False ] ; 'False'
str ; [ 0 ] ; '0'
str ; [ -7 ] ; '-7'
str ; [ 170141183460469231731687303715884105727 ] ; '170141183460469231731687303715884105727'
str ; [ -170141183460469231731687303715884105728 ] ; '-170141183460469231731687303715884105728'
str ; [ '' ] ; ''
str ; [ 'a␣b' ] ; 'a␣b'
str ; [ '\u{e9}' ] ; '\u{e9}'
str ; [ ( ) ] ; ProfileError
str ; [ ( 1 , ) ] ; ProfileError
str ; [ [ ] ] ; ProfileError
str ; [ [ 1 ] ] ; ProfileError
str ; [ { } ] ; ProfileError
str ; [ { 1 : 2 } ] ; ProfileError
bool ; [ None ] ; False
bool ; [ True ] ; True
bool ; [ False ] ; False
bool ; [ 0 ] ; False
bool ; [ 1 ] ; True
bool ; [ -1 ] ; True
bool ; [ '' ] ; False
bool ; [ '␣' ] ; True
bool ; [ '0' ] ; True
bool ; [ ( ) ] ; False
bool ; [ ( 0 , ) ] ; True
bool ; [ [ ] ] ; False
bool ; [ [ [ ] ] ] ; True
bool ; [ { } ] ; False
bool ; [ { 0 : 0 } ] ; True
abs ; [ True ] ; 1
abs ; [ False ] ; 0
abs ; [ 0 ] ; 0
abs ; [ 5 ] ; 5
abs ; [ -5 ] ; 5
abs ; [ 170141183460469231731687303715884105727 ] ; 170141183460469231731687303715884105727
abs ; [ -170141183460469231731687303715884105727 ] ; 170141183460469231731687303715884105727
abs ; [ -170141183460469231731687303715884105728 ] ; OverflowError
abs ; [ None ] ; TypeError
abs ; [ '1' ] ; TypeError
abs ; [ ( ) ] ; TypeError
abs ; [ [ 1 ] ] ; TypeError
abs ; [ { } ] ; TypeError
min ; [ [ 3 , 1 , 2 ] ] ; 1
min ; [ ( 3 , 1 , 2 ) ] ; 1
min ; [ 'cab' ] ; 'a'
min ; [ { 'b' : 1 , 'a' : 2 } ] ; 'a'
min ; [ '' ] ; ValueError
min ; [ ( ) ] ; ValueError
min ; [ [ ] ] ; ValueError
min ; [ { } ] ; ValueError
min ; [ 1 , True ] ; 1
min ; [ True , 1 ] ; True
min ; [ 0 , False , 0 ] ; 0
min ; [ 2 , 1 , 3 ] ; 1
min ; [ 'b' , 'a' ] ; 'a'
min ; [ 'a' , 1 ] ; TypeError
min ; [ [ 1 ] , ( 1 , ) ] ; TypeError
min ; [ [ 1 , 2 ] , [ 1 ] ] ; [ 1 ]
min ; [ ( 1 , 'a' ) , ( 1 , 2 ) ] ; TypeError
min ; [ ( 1 , 2 ) , ( 1 , 'a' ) ] ; TypeError
min ; [ [ 2 , 'a' ] , [ 1 , 2 ] ] ; [ 1 , 2 ]
min ; [ None , None ] ; TypeError
min ; [ None ] ; TypeError
min ; [ 5 ] ; TypeError
min ; [ True ] ; TypeError
min ; [ [ None ] ] ; None
min ; [ [ None , None ] ] ; TypeError
min ; [ [ { } ] ] ; { }
min ; [ [ { } , { } ] ] ; TypeError
min ; [ [ 1 , 'a' , 2 ] ] ; TypeError
min ; [ [ 'b' , 'a' , 'B' ] ] ; 'B'
min ; [ [ 1 , 0 , True , False ] ] ; 0
min ; [ [ 170141183460469231731687303715884105727 , -170141183460469231731687303715884105728 , 0 ] ] ; -170141183460469231731687303715884105728
min ; [ [ [ 1 ] , [ True ] , [ 0 ] ] ] ; [ 0 ]
min ; [ [ ( 2 , 'x' ) , ( 2 , 'x' , 0 ) , ( 2 , ) ] ] ; ( 2 , )
min ; [ '\u{e9}' , 'z' , 'Z' ] ; 'Z'
min ; [ '' , 'a' ] ; ''
min ; [ { } , 1 ] ; TypeError
max ; [ [ 3 , 1 , 2 ] ] ; 3
max ; [ ( 3 , 1 , 2 ) ] ; 3
max ; [ 'cab' ] ; 'c'
max ; [ { 'b' : 1 , 'a' : 2 } ] ; 'b'
max ; [ '' ] ; ValueError
max ; [ ( ) ] ; ValueError
max ; [ [ ] ] ; ValueError
max ; [ { } ] ; ValueError
max ; [ 1 , True ] ; 1
max ; [ True , 1 ] ; True
max ; [ 0 , False , 0 ] ; 0
max ; [ 2 , 1 , 3 ] ; 3
max ; [ 'b' , 'a' ] ; 'b'
max ; [ 'a' , 1 ] ; TypeError
max ; [ [ 1 ] , ( 1 , ) ] ; TypeError
max ; [ [ 1 , 2 ] , [ 1 ] ] ; [ 1 , 2 ]
max ; [ ( 1 , 'a' ) , ( 1 , 2 ) ] ; TypeError
max ; [ ( 1 , 2 ) , ( 1 , 'a' ) ] ; TypeError
max ; [ [ 2 , 'a' ] , [ 1 , 2 ] ] ; [ 2 , 'a' ]
max ; [ None , None ] ; TypeError
max ; [ None ] ; TypeError
max ; [ 5 ] ; TypeError
max ; [ True ] ; TypeError
max ; [ [ None ] ] ; None
max ; [ [ None , None ] ] ; TypeError
max ; [ [ { } ] ] ; { }
max ; [ [ { } , { } ] ] ; TypeError
max ; [ [ 1 , 'a' , 2 ] ] ; TypeError
max ; [ [ 'b' , 'a' , 'B' ] ] ; 'b'
max ; [ [ 1 , 0 , True , False ] ] ; 1
max ; [ [ 170141183460469231731687303715884105727 , -170141183460469231731687303715884105728 , 0 ] ] ; 170141183460469231731687303715884105727
max ; [ [ [ 1 ] , [ True ] , [ 0 ] ] ] ; [ 1 ]
max ; [ [ ( 2 , 'x' ) , ( 2 , 'x' , 0 ) , ( 2 , ) ] ] ; ( 2 , 'x' , 0 )
max ; [ '\u{e9}' , 'z' , 'Z' ] ; '\u{e9}'
max ; [ '' , 'a' ] ; 'a'
max ; [ { } , 1 ] ; TypeError
sum ; [ [ 1 , 2 , 3 ] ] ; 6
sum ; [ ( True , True , False ) ] ; 2
sum ; [ [ ] ] ; 0
sum ; [ ( ) ] ; 0
sum ; [ '' ] ; 0
sum ; [ 'ab' ] ; TypeError
sum ; [ { } ] ; 0
sum ; [ { 1 : 2 , 3 : 4 } ] ; 4
sum ; [ { 'a' : 1 } ] ; TypeError
sum ; [ [ 1 , 'a' ] ] ; TypeError
sum ; [ [ None ] ] ; TypeError
sum ; [ [ [ 1 ] , [ 2 ] ] ] ; TypeError
sum ; [ [ 170141183460469231731687303715884105727 , -1 , 1 ] ] ; 170141183460469231731687303715884105727
sum ; [ [ -170141183460469231731687303715884105728 ] ] ; -170141183460469231731687303715884105728
sum ; [ None ] ; TypeError
sum ; [ 5 ] ; TypeError
sum ; [ True ] ; TypeError
sum ; [ [ ] ] ; 0
sum ; [ [ 170141183460469231731687303715884105727 , 1 ] ] ; OverflowError
sum ; [ [ 170141183460469231731687303715884105727 , 1 , 'a' ] ] ; OverflowError
sum ; [ [ 1 , 'a' , 170141183460469231731687303715884105727 , 170141183460469231731687303715884105727 ] ] ; TypeError
sum ; [ [ 170141183460469231731687303715884105727 , 1 , -1 ] ] ; OverflowError
sum ; [ [ -170141183460469231731687303715884105728 , -1 ] ] ; OverflowError
any ; [ [ ] ] ; False
any ; [ ( ) ] ; False
any ; [ '' ] ; False
any ; [ { } ] ; False
any ; [ [ 0 , None ] ] ; False
any ; [ [ 0 , 1 ] ] ; True
any ; [ [ 1 , [ ] ] ] ; True
any ; [ 'a' ] ; True
any ; [ { 0 : 1 } ] ; False
any ; [ { 1 : 0 } ] ; True
any ; [ ( True , 'x' ) ] ; True
any ; [ None ] ; TypeError
any ; [ 3 ] ; TypeError
all ; [ [ ] ] ; True
all ; [ ( ) ] ; True
all ; [ '' ] ; True
all ; [ { } ] ; True
all ; [ [ 0 , None ] ] ; False
all ; [ [ 0 , 1 ] ] ; False
all ; [ [ 1 , [ ] ] ] ; False
all ; [ 'a' ] ; True
all ; [ { 0 : 1 } ] ; False
all ; [ { 1 : 0 } ] ; True
all ; [ ( True , 'x' ) ] ; True
all ; [ None ] ; TypeError
all ; [ 3 ] ; TypeError
ord ; [ 'a' ] ; 97
ord ; [ '\u{20ac}' ] ; 8364
ord ; [ '\u{1d11e}' ] ; 119070
ord ; [ '' ] ; TypeError
ord ; [ 'ab' ] ; TypeError
ord ; [ None ] ; TypeError
ord ; [ 1 ] ; TypeError
ord ; [ True ] ; TypeError
ord ; [ ( 'a' , ) ] ; TypeError
ord ; [ [ 'a' ] ] ; TypeError
ord ; [ { 'a' : 1 } ] ; TypeError
list ; [ 'a\u{df}' ] ; [ 'a' , '\u{df}' ]
list ; [ '' ] ; [ ]
list ; [ ( 1 , 'a' ) ] ; [ 1 , 'a' ]
list ; [ [ [ 1 ] , ( ) ] ] ; [ [ 1 ] , ( ) ]
list ; [ { 1 : 2 , 'k' : [ ] } ] ; [ 1 , 'k' ]
list ; [ { } ] ; [ ]
list ; [ None ] ; TypeError
list ; [ True ] ; TypeError
list ; [ 3 ] ; TypeError
tuple ; [ 'a\u{df}' ] ; ( 'a' , '\u{df}' )
tuple ; [ '' ] ; ( )
tuple ; [ ( 1 , 'a' ) ] ; ( 1 , 'a' )
tuple ; [ [ [ 1 ] , ( ) ] ] ; ( [ 1 ] , ( ) )
tuple ; [ { 1 : 2 , 'k' : [ ] } ] ; ( 1 , 'k' )
tuple ; [ { } ] ; ( )
tuple ; [ None ] ; TypeError
tuple ; [ True ] ; TypeError
tuple ; [ 3 ] ; TypeError";

// Whether an answer is due, also by the call for one argument where there is one.
fn answers(alloc: Global, row: &str) -> Result<bool, NoMemory> {
    let Some(b) = builtin_named(cell(row, 0)) else {
        return Ok(false);
    };
    let args = args_at(alloc, row, 1)?;
    let due = cell(row, 2);
    if let [a] = args.as_slice() {
        if !is_due(alloc, builtin_of_one(alloc, b, a), due)? {
            return Ok(false);
        }
    }
    is_due(alloc, builtin(alloc, b, &args), due)
}

#[test]
fn built_in_functions_answer(rt: HostRuntime) {
    let mut rows = 0usize;
    for row in BUILTINS.lines().skip(1) {
        assert!(rt; answers(rt.alloc(), row) == Ok(true), "{row}");
        rows = rows.wrapping_add(1);
    }
    assert!(rt; rows == 245);
}

use super::reader::value_at;
use super::{args_at, cell, is_due};
use std::alloc::Global;
use tx_methods::{has_method, method};
use tx_text::NoMemory;
use tx_tree::method_named;

// A value, its method, the arguments, and the answer.
const METHODS: &str = "
'␣a␣␣b␣' ; split ; [ ] ; [ 'a' , 'b' ]
'a,,b' ; split ; [ ',' ] ; [ 'a' , '' , 'b' ]
'' ; split ; [ ',' ] ; [ '' ]
'a' ; split ; [ '' ] ; ValueError
'ab' ; replace ; [ '' , '-' ] ; '-a-b-'
'ab' ; count ; [ '' ] ; 3
'ab' ; find ; [ '' ] ; 0
'ab' ; rfind ; [ '' ] ; 2
'stra\u{df}e' ; upper ; [ ] ; 'STRASSE'
'\u{c9}' ; lower ; [ ] ; '\u{e9}'
'-7' ; zfill ; [ 4 ] ; '-007'
'a-a' ; strip ; [ 'a' ] ; '-'
'abc' ; startswith ; [ ( 'x' , 'a' ) ] ; True
',' ; join ; [ [ 'a' , 'b' ] ] ; 'a,b'
',' ; join ; [ [ 1 ] ] ; TypeError
'a' ; index ; [ 'b' ] ; ValueError
'' ; isdigit ; [ ] ; False
'12' ; isdigit ; [ ] ; True
'\u{663}' ; isdigit ; [ ] ; ProfileError
'aB1-' ; lower ; [ ] ; 'ab1-'
'aB1-' ; upper ; [ ] ; 'AB1-'
'\u{c0}\u{d6}\u{d8}\u{de}\u{d7}' ; lower ; [ ] ; '\u{e0}\u{f6}\u{f8}\u{fe}\u{d7}'
'\u{e0}\u{f6}\u{f8}\u{fe}\u{f7}' ; upper ; [ ] ; '\u{c0}\u{d6}\u{d8}\u{de}\u{f7}'
'\u{ff}\u{b5}\u{df}' ; upper ; [ ] ; '\u{178}\u{39c}SS'
'\u{100}' ; lower ; [ ] ; ProfileError
'a\u{178}' ; upper ; [ ] ; ProfileError
'' ; upper ; [ ] ; ''
'\u{1e9e}' ; lower ; [ ] ; ProfileError
'1a' ; isdigit ; [ ] ; False
'1\u{663}' ; isdigit ; [ ] ; ProfileError
'a\u{663}' ; isdigit ; [ ] ; False
'\u{b2}' ; isdigit ; [ ] ; ProfileError
'0123456789' ; isdigit ; [ ] ; True
'-1' ; isdigit ; [ ] ; False
'\u{2003}␣x␣y\u{9}\u{3000}' ; strip ; [ ] ; 'x␣y'
'␣x␣' ; strip ; [ None ] ; 'x'
'xyx' ; strip ; [ 'x' ] ; 'y'
'xyzyx' ; strip ; [ 'yx' ] ; 'z'
'xx' ; strip ; [ 'x' ] ; ''
'␣x␣' ; strip ; [ '' ] ; '␣x␣'
'x' ; strip ; [ 1 ] ; TypeError
'x' ; strip ; [ ( 'x' , ) ] ; TypeError
'x' ; strip ; [ [ 'x' ] ] ; TypeError
'x' ; strip ; [ True ] ; TypeError
'x' ; strip ; [ { } ] ; TypeError
'\u{2003}␣x␣y\u{9}\u{3000}' ; lstrip ; [ ] ; 'x␣y\u{9}\u{3000}'
'␣x␣' ; lstrip ; [ None ] ; 'x␣'
'xyx' ; lstrip ; [ 'x' ] ; 'yx'
'xyzyx' ; lstrip ; [ 'yx' ] ; 'zyx'
'xx' ; lstrip ; [ 'x' ] ; ''
'␣x␣' ; lstrip ; [ '' ] ; '␣x␣'
'x' ; lstrip ; [ 1 ] ; TypeError
'x' ; lstrip ; [ ( 'x' , ) ] ; TypeError
'x' ; lstrip ; [ [ 'x' ] ] ; TypeError
'x' ; lstrip ; [ True ] ; TypeError
'x' ; lstrip ; [ { } ] ; TypeError
'\u{2003}␣x␣y\u{9}\u{3000}' ; rstrip ; [ ] ; '\u{2003}␣x␣y'
'␣x␣' ; rstrip ; [ None ] ; '␣x'
'xyx' ; rstrip ; [ 'x' ] ; 'xy'
'xyzyx' ; rstrip ; [ 'yx' ] ; 'xyz'
'xx' ; rstrip ; [ 'x' ] ; ''
'␣x␣' ; rstrip ; [ '' ] ; '␣x␣'
'x' ; rstrip ; [ 1 ] ; TypeError
'x' ; rstrip ; [ ( 'x' , ) ] ; TypeError
'x' ; rstrip ; [ [ 'x' ] ] ; TypeError
'x' ; rstrip ; [ True ] ; TypeError
'x' ; rstrip ; [ { } ] ; TypeError
'' ; split ; [ ] ; [ ]
'␣\u{9}␣' ; split ; [ ] ; [ ]
'a␣b\u{1c}c\u{2028}d' ; split ; [ ] ; [ 'a' , 'b' , 'c' , 'd' ]
'a␣␣b' ; split ; [ '␣' ] ; [ 'a' , '' , 'b' ]
'a␣b' ; split ; [ None ] ; [ 'a' , 'b' ]
'abcabc' ; split ; [ 'bc' ] ; [ 'a' , 'a' , '' ]
'aaaa' ; split ; [ 'aaa' ] ; [ '' , 'a' ]
'' ; split ; [ '' ] ; ValueError
'abc' ; split ; [ 'x' ] ; [ 'abc' ]
'a' ; split ; [ 1 ] ; TypeError
'a' ; split ; [ True ] ; TypeError
'a' ; split ; [ ( 'a' , ) ] ; TypeError
'a' ; split ; [ [ 'a' ] ] ; TypeError
'a' ; split ; [ { } ] ; TypeError
'banana' ; replace ; [ 'a' , 'xy' ] ; 'bxynxynxy'
'banana' ; replace ; [ 'ana' , '-' ] ; 'b-na'
'aaa' ; replace ; [ 'aa' , 'b' ] ; 'ba'
'' ; replace ; [ '' , 'x' ] ; 'x'
'ab' ; replace ; [ 'b' , '' ] ; 'a'
'ab' ; replace ; [ 'x' , 'y' ] ; 'ab'
'abc' ; replace ; [ 'ab' , 'ba' ] ; 'bac'
'a' ; replace ; [ 1 , 'a' ] ; TypeError
'a' ; replace ; [ 'a' , 1 ] ; TypeError
'a' ; replace ; [ None , 'a' ] ; TypeError
'a' ; replace ; [ 'a' , None ] ; TypeError
'a' ; replace ; [ True , False ] ; TypeError
'a' ; replace ; [ ( 'a' , ) , 'b' ] ; TypeError
'a' ; replace ; [ 'a' , [ 'b' ] ] ; TypeError
'a' ; replace ; [ { } , { } ] ; TypeError
'abab' ; find ; [ 'b' ] ; 1
'abab' ; find ; [ 'ab' ] ; 0
'abab' ; find ; [ '' ] ; 0
'abab' ; find ; [ 'x' ] ; -1
'abab' ; find ; [ 'abab' ] ; 0
'abab' ; find ; [ 'ababa' ] ; -1
'abab' ; find ; [ None ] ; TypeError
'abab' ; find ; [ 1 ] ; TypeError
'abab' ; find ; [ True ] ; TypeError
'abab' ; find ; [ ( 'a' , ) ] ; TypeError
'abab' ; find ; [ [ 'a' ] ] ; TypeError
'abab' ; find ; [ { } ] ; TypeError
'abab' ; rfind ; [ 'b' ] ; 3
'abab' ; rfind ; [ 'ab' ] ; 2
'abab' ; rfind ; [ '' ] ; 4
'abab' ; rfind ; [ 'x' ] ; -1
'abab' ; rfind ; [ 'abab' ] ; 0
'abab' ; rfind ; [ 'ababa' ] ; -1
'abab' ; rfind ; [ None ] ; TypeError
'abab' ; rfind ; [ 1 ] ; TypeError
'abab' ; rfind ; [ True ] ; TypeError
'abab' ; rfind ; [ ( 'a' , ) ] ; TypeError
'abab' ; rfind ; [ [ 'a' ] ] ; TypeError
'abab' ; rfind ; [ { } ] ; TypeError
'abab' ; index ; [ 'b' ] ; 1
'abab' ; index ; [ 'ab' ] ; 0
'abab' ; index ; [ '' ] ; 0
'abab' ; index ; [ 'x' ] ; ValueError
'abab' ; index ; [ 'abab' ] ; 0
'abab' ; index ; [ 'ababa' ] ; ValueError
'abab' ; index ; [ None ] ; TypeError
'abab' ; index ; [ 1 ] ; TypeError
'abab' ; index ; [ True ] ; TypeError
'abab' ; index ; [ ( 'a' , ) ] ; TypeError
'abab' ; index ; [ [ 'a' ] ] ; TypeError
'abab' ; index ; [ { } ] ; TypeError
'abab' ; count ; [ 'b' ] ; 2
'abab' ; count ; [ 'ab' ] ; 2
'abab' ; count ; [ '' ] ; 5
'abab' ; count ; [ 'x' ] ; 0
'abab' ; count ; [ 'abab' ] ; 1
'abab' ; count ; [ 'ababa' ] ; 0
'abab' ; count ; [ None ] ; TypeError
'abab' ; count ; [ 1 ] ; TypeError
'abab' ; count ; [ True ] ; TypeError
'abab' ; count ; [ ( 'a' , ) ] ; TypeError
'abab' ; count ; [ [ 'a' ] ] ; TypeError
'abab' ; count ; [ { } ] ; TypeError
'\u{df}\u{20ac}\u{df}' ; find ; [ '\u{20ac}' ] ; 1
'\u{df}\u{20ac}\u{df}' ; rfind ; [ '\u{df}' ] ; 2
'aaaaa' ; count ; [ 'aa' ] ; 2
'' ; count ; [ '' ] ; 1
'' ; index ; [ '' ] ; 0
'abab' ; startswith ; [ 'ab' ] ; True
'abab' ; startswith ; [ 'bab' ] ; False
'abab' ; startswith ; [ '' ] ; True
'abab' ; startswith ; [ 'abab' ] ; True
'abab' ; startswith ; [ 'xabab' ] ; False
'abab' ; startswith ; [ 'x' ] ; False
'abab' ; startswith ; [ ( ) ] ; False
'abab' ; startswith ; [ ( 'x' , 'y' ) ] ; False
'abab' ; startswith ; [ ( 'x' , 'ab' ) ] ; True
'abab' ; startswith ; [ ( 'ab' , 1 ) ] ; True
'abab' ; startswith ; [ ( 1 , 'ab' ) ] ; TypeError
'abab' ; startswith ; [ ( 'x' , None , 'ab' ) ] ; TypeError
'abab' ; startswith ; [ ( '' , ) ] ; True
'abab' ; startswith ; [ ( ( 'ab' , ) , ) ] ; TypeError
'abab' ; startswith ; [ [ 'ab' ] ] ; TypeError
'abab' ; startswith ; [ None ] ; TypeError
'abab' ; startswith ; [ 1 ] ; TypeError
'abab' ; startswith ; [ True ] ; TypeError
'abab' ; startswith ; [ { } ] ; TypeError
'abab' ; startswith ; [ { 'ab' : 1 } ] ; TypeError
'abab' ; endswith ; [ 'ab' ] ; True
'abab' ; endswith ; [ 'bab' ] ; True
'abab' ; endswith ; [ '' ] ; True
'abab' ; endswith ; [ 'abab' ] ; True
'abab' ; endswith ; [ 'xabab' ] ; False
'abab' ; endswith ; [ 'x' ] ; False
'abab' ; endswith ; [ ( ) ] ; False
'abab' ; endswith ; [ ( 'x' , 'y' ) ] ; False
'abab' ; endswith ; [ ( 'x' , 'ab' ) ] ; True
'abab' ; endswith ; [ ( 'ab' , 1 ) ] ; True
'abab' ; endswith ; [ ( 1 , 'ab' ) ] ; TypeError
'abab' ; endswith ; [ ( 'x' , None , 'ab' ) ] ; TypeError
'abab' ; endswith ; [ ( '' , ) ] ; True
'abab' ; endswith ; [ ( ( 'ab' , ) , ) ] ; TypeError
'abab' ; endswith ; [ [ 'ab' ] ] ; TypeError
'abab' ; endswith ; [ None ] ; TypeError
'abab' ; endswith ; [ 1 ] ; TypeError
'abab' ; endswith ; [ True ] ; TypeError
'abab' ; endswith ; [ { } ] ; TypeError
'abab' ; endswith ; [ { 'ab' : 1 } ] ; TypeError
'\u{20ac}\u{df}' ; startswith ; [ '\u{20ac}' ] ; True
'\u{20ac}\u{df}' ; endswith ; [ '\u{df}' ] ; True
'\u{20ac}\u{df}' ; endswith ; [ '\u{20ac}\u{df}' ] ; True
'\u{df}' ; endswith ; [ '\u{20ac}\u{df}' ] ; False
'' ; startswith ; [ '' ] ; True
'' ; endswith ; [ 'a' ] ; False
'xxxxxxxxxxxxxxxxxxxxxxxxxxxxxxxxxxxxxxxxyyyyyyyyyyyyyyyyyyyyyyyyyyyyyy' ; endswith ; [ 'yyyyyyyyyyyyyyyyyyyyyyyyyyyyyy' ] ; True
'xxxxxxxxxxxxxxxxxxxxxxxxxxxxxxxxxxxxxxxxyyyyyyyyyyyyyyyyyyyyyyyyyyyyyy' ; endswith ; [ 'yyyyyyyyyyyyyyyyyyyyyyyyyyyyyyy' ] ; False
',␣' ; join ; [ [ ] ] ; ''
',␣' ; join ; [ ( ) ] ; ''
',␣' ; join ; [ [ 'a' ] ] ; 'a'
',␣' ; join ; [ ( 'a' , 'b' , 'c' ) ] ; 'a,␣b,␣c'
',␣' ; join ; [ 'abc' ] ; 'a,␣b,␣c'
',␣' ; join ; [ '' ] ; ''
',␣' ; join ; [ { 'k' : 1 , 'l' : 2 } ] ; 'k,␣l'
',␣' ; join ; [ { } ] ; ''
',␣' ; join ; [ [ 'a' , 'b' , 1 ] ] ; TypeError
',␣' ; join ; [ [ 1 , 'a' ] ] ; TypeError
',␣' ; join ; [ [ 'a' , None ] ] ; TypeError
',␣' ; join ; [ [ [ 'a' ] ] ] ; TypeError
',␣' ; join ; [ ( ( 'a' , ) , ) ] ; TypeError
',␣' ; join ; [ None ] ; TypeError
',␣' ; join ; [ 1 ] ; TypeError
',␣' ; join ; [ True ] ; TypeError
',␣' ; join ; [ { 1 : 'a' } ] ; TypeError
'' ; join ; [ [ 'a' , 'b' ] ] ; 'ab'
'-' ; join ; [ [ '' , '' ] ] ; '-'
'+1' ; zfill ; [ 0 ] ; '+1'
'+1' ; zfill ; [ 1 ] ; '+1'
'+1' ; zfill ; [ 5 ] ; '+0001'
'+1' ; zfill ; [ -3 ] ; '+1'
'+1' ; zfill ; [ True ] ; '+1'
'+1' ; zfill ; [ False ] ; '+1'
'+1' ; zfill ; [ -9223372036854775808 ] ; '+1'
'' ; zfill ; [ 2 ] ; '00'
'a' ; zfill ; [ 3 ] ; '00a'
'--1' ; zfill ; [ 5 ] ; '-00-1'
'\u{df}' ; zfill ; [ 3 ] ; '00\u{df}'
'1' ; zfill ; [ 9223372036854775808 ] ; OverflowError
'1' ; zfill ; [ -9223372036854775809 ] ; OverflowError
'1' ; zfill ; [ 9223372036854775807 ] ; ProfileError
'1' ; zfill ; [ 1048577 ] ; ProfileError
'1' ; zfill ; [ None ] ; TypeError
'1' ; zfill ; [ '3' ] ; TypeError
'1' ; zfill ; [ ( ) ] ; TypeError
'1' ; zfill ; [ [ 3 ] ] ; TypeError
'1' ; zfill ; [ { } ] ; TypeError
( 1 , 'a' , True , 1 ) ; count ; [ True ] ; 3
( 1 , 'a' , True , 1 ) ; count ; [ 'a' ] ; 1
( 1 , 'a' , True , 1 ) ; count ; [ None ] ; 0
( 1 , 'a' , True , 1 ) ; count ; [ ( ) ] ; 0
( 1 , 'a' , True , 1 ) ; count ; [ [ 1 ] ] ; 0
( 1 , 'a' , True , 1 ) ; index ; [ True ] ; 0
( 1 , 'a' , True , 1 ) ; index ; [ 'a' ] ; 1
( 1 , 'a' , True , 1 ) ; index ; [ None ] ; ValueError
( 1 , 'a' , True , 1 ) ; index ; [ ( ) ] ; ValueError
( 1 , 'a' , True , 1 ) ; index ; [ [ 1 ] ] ; ValueError
[ 1 , 'a' , True , 1 ] ; count ; [ True ] ; 3
[ 1 , 'a' , True , 1 ] ; count ; [ 'a' ] ; 1
[ 1 , 'a' , True , 1 ] ; count ; [ None ] ; 0
[ 1 , 'a' , True , 1 ] ; count ; [ ( ) ] ; 0
[ 1 , 'a' , True , 1 ] ; count ; [ [ 1 ] ] ; 0
[ 1 , 'a' , True , 1 ] ; index ; [ True ] ; 0
[ 1 , 'a' , True , 1 ] ; index ; [ 'a' ] ; 1
[ 1 , 'a' , True , 1 ] ; index ; [ None ] ; ValueError
[ 1 , 'a' , True , 1 ] ; index ; [ ( ) ] ; ValueError
[ 1 , 'a' , True , 1 ] ; index ; [ [ 1 ] ] ; ValueError
( ( ) , [ ] , ( ) ) ; count ; [ True ] ; 0
( ( ) , [ ] , ( ) ) ; count ; [ 'a' ] ; 0
( ( ) , [ ] , ( ) ) ; count ; [ None ] ; 0
( ( ) , [ ] , ( ) ) ; count ; [ ( ) ] ; 2
( ( ) , [ ] , ( ) ) ; count ; [ [ 1 ] ] ; 0
( ( ) , [ ] , ( ) ) ; index ; [ True ] ; ValueError
( ( ) , [ ] , ( ) ) ; index ; [ 'a' ] ; ValueError
( ( ) , [ ] , ( ) ) ; index ; [ None ] ; ValueError
( ( ) , [ ] , ( ) ) ; index ; [ ( ) ] ; 0
( ( ) , [ ] , ( ) ) ; index ; [ [ 1 ] ] ; ValueError
[ None , None ] ; count ; [ True ] ; 0
[ None , None ] ; count ; [ 'a' ] ; 0
[ None , None ] ; count ; [ None ] ; 2
[ None , None ] ; count ; [ ( ) ] ; 0
[ None , None ] ; count ; [ [ 1 ] ] ; 0
[ None , None ] ; index ; [ True ] ; ValueError
[ None , None ] ; index ; [ 'a' ] ; ValueError
[ None , None ] ; index ; [ None ] ; 0
[ None , None ] ; index ; [ ( ) ] ; ValueError
[ None , None ] ; index ; [ [ 1 ] ] ; ValueError
[ [ 1 ] , ( 1 , ) ] ; count ; [ True ] ; 0
[ [ 1 ] , ( 1 , ) ] ; count ; [ 'a' ] ; 0
[ [ 1 ] , ( 1 , ) ] ; count ; [ None ] ; 0
[ [ 1 ] , ( 1 , ) ] ; count ; [ ( ) ] ; 0
[ [ 1 ] , ( 1 , ) ] ; count ; [ [ 1 ] ] ; 1
[ [ 1 ] , ( 1 , ) ] ; index ; [ True ] ; ValueError
[ [ 1 ] , ( 1 , ) ] ; index ; [ 'a' ] ; ValueError
[ [ 1 ] , ( 1 , ) ] ; index ; [ None ] ; ValueError
[ [ 1 ] , ( 1 , ) ] ; index ; [ ( ) ] ; ValueError
[ [ 1 ] , ( 1 , ) ] ; index ; [ [ 1 ] ] ; 0
( ) ; count ; [ True ] ; 0
( ) ; count ; [ 'a' ] ; 0
( ) ; count ; [ None ] ; 0
( ) ; count ; [ ( ) ] ; 0
( ) ; count ; [ [ 1 ] ] ; 0
( ) ; index ; [ True ] ; ValueError
( ) ; index ; [ 'a' ] ; ValueError
( ) ; index ; [ None ] ; ValueError
( ) ; index ; [ ( ) ] ; ValueError
( ) ; index ; [ [ 1 ] ] ; ValueError
[ ] ; count ; [ True ] ; 0
[ ] ; count ; [ 'a' ] ; 0
[ ] ; count ; [ None ] ; 0
[ ] ; count ; [ ( ) ] ; 0
[ ] ; count ; [ [ 1 ] ] ; 0
[ ] ; index ; [ True ] ; ValueError
[ ] ; index ; [ 'a' ] ; ValueError
[ ] ; index ; [ None ] ; ValueError
[ ] ; index ; [ ( ) ] ; ValueError
[ ] ; index ; [ [ 1 ] ] ; ValueError
[ { 'a' : 1 } , { 'a' : True } ] ; count ; [ { 'a' : 1 } ] ; 2
[ ( 1 , 2 ) , ( True , 2 ) ] ; index ; [ ( True , 2 ) ] ; 0
{ 'a' : 1 , 2 : None , ( 1 , 2 ) : 't' , None : [ ] , 1 : 'one' } ; get ; [ 'a' ] ; 1
{ 'a' : 1 , 2 : None , ( 1 , 2 ) : 't' , None : [ ] , 1 : 'one' } ; get ; [ 2 ] ; None
{ 'a' : 1 , 2 : None , ( 1 , 2 ) : 't' , None : [ ] , 1 : 'one' } ; get ; [ True ] ; 'one'
{ 'a' : 1 , 2 : None , ( 1 , 2 ) : 't' , None : [ ] , 1 : 'one' } ; get ; [ ( 1 , 2 ) ] ; 't'
{ 'a' : 1 , 2 : None , ( 1 , 2 ) : 't' , None : [ ] , 1 : 'one' } ; get ; [ ( True , 2 ) ] ; 't'
{ 'a' : 1 , 2 : None , ( 1 , 2 ) : 't' , None : [ ] , 1 : 'one' } ; get ; [ None ] ; [ ]
{ 'a' : 1 , 2 : None , ( 1 , 2 ) : 't' , None : [ ] , 1 : 'one' } ; get ; [ 'b' ] ; None
{ 'a' : 1 , 2 : None , ( 1 , 2 ) : 't' , None : [ ] , 1 : 'one' } ; get ; [ 3 ] ; None
{ 'a' : 1 , 2 : None , ( 1 , 2 ) : 't' , None : [ ] , 1 : 'one' } ; get ; [ [ ] ] ; TypeError
{ 'a' : 1 , 2 : None , ( 1 , 2 ) : 't' , None : [ ] , 1 : 'one' } ; get ; [ { } ] ; TypeError
{ 'a' : 1 , 2 : None , ( 1 , 2 ) : 't' , None : [ ] , 1 : 'one' } ; get ; [ ( [ ] , ) ] ; TypeError
{ 'a' : 1 , 2 : None , ( 1 , 2 ) : 't' , None : [ ] , 1 : 'one' } ; get ; [ ( 1 , ( [ ] , ) ) ] ; TypeError
{ 'a' : 1 , 2 : None , ( 1 , 2 ) : 't' , None : [ ] , 1 : 'one' } ; get ; [ False ] ; None
{ 'a' : 1 , 2 : None , ( 1 , 2 ) : 't' , None : [ ] , 1 : 'one' } ; get ; [ 'a' , 5 ] ; 1
{ 'a' : 1 , 2 : None , ( 1 , 2 ) : 't' , None : [ ] , 1 : 'one' } ; get ; [ 'b' , 5 ] ; 5
{ 'a' : 1 , 2 : None , ( 1 , 2 ) : 't' , None : [ ] , 1 : 'one' } ; get ; [ 'b' , None ] ; None
{ 'a' : 1 , 2 : None , ( 1 , 2 ) : 't' , None : [ ] , 1 : 'one' } ; get ; [ True , 0 ] ; 'one'
{ 'a' : 1 , 2 : None , ( 1 , 2 ) : 't' , None : [ ] , 1 : 'one' } ; get ; [ [ ] , 1 ] ; TypeError
{ 'a' : 1 , 2 : None , ( 1 , 2 ) : 't' , None : [ ] , 1 : 'one' } ; get ; [ { } , None ] ; TypeError
{ 'a' : 1 , 2 : None , ( 1 , 2 ) : 't' , None : [ ] , 1 : 'one' } ; get ; [ 2 , 7 ] ; None
{ 'a' : 1 , 2 : None , ( 1 , 2 ) : 't' , None : [ ] , 1 : 'one' } ; get ; [ 'b' , [ ] ] ; [ ]
5 ; lower ; [ ] ; AttributeError
None ; get ; [ 1 ] ; AttributeError
True ; count ; [ 1 ] ; AttributeError
'a' ; get ; [ 'a' ] ; AttributeError
[ ] ; upper ; [ ] ; AttributeError
( ) ; get ; [ 1 ] ; AttributeError
[ ] ; join ; [ 'a' ] ; AttributeError
{ } ; count ; [ 1 ] ; AttributeError
{ } ; index ; [ 1 ] ; AttributeError
{ } ; strip ; [ ] ; AttributeError
( ) ; zfill ; [ 3 ] ; AttributeError";

fn answers(alloc: Global, row: &str) -> Result<bool, NoMemory> {
    let Some(m) = method_named(cell(row, 1)) else {
        return Ok(false);
    };
    let on = value_at(alloc, row, 0)?;
    let args = args_at(alloc, row, 2)?;
    let due = cell(row, 3);
    if has_method(m, &on) == (due == "AttributeError") {
        return Ok(false);
    }
    is_due(alloc, method(alloc, m, &on, &args), due)
}

#[test]
fn methods_answer(rt: HostRuntime) {
    let mut rows = 0usize;
    for row in METHODS.lines().skip(1) {
        assert!(rt; answers(rt.alloc(), row) == Ok(true), "{row}");
        rows = rows.wrapping_add(1);
    }
    assert!(rt; rows == 340);
}

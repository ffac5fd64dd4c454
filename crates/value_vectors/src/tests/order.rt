use crate::tests::row::each_row_holds;
use tx_base::Class;
use tx_values::{Value, less};

// Two values, and whether the first is before the second; `raises` where Python's `<` raises TypeError.
const ORDER: &str = "\
1 ; < ; 2
2 ; >= ; 2
True ; < ; 2
False ; < ; True
1 ; >= ; True
-1 ; < ; False
-170141183460469231731687303715884105728 ; < ; 170141183460469231731687303715884105727
None ; raises ; None
None ; raises ; 1
1 ; raises ; None
'a' ; raises ; 1
'a' ; < ; 'ab'
'ab' ; >= ; 'a'
'Z' ; < ; 'a'
'\u{e9}' ; >= ; 'z'
'\u{ffff}' ; < ; '\u{10000}'
( 1 , 'a' ) ; raises ; ( 1 , 2 )
( True , 'a' ) ; < ; ( 2 , 2 )
( 1 , 2 ) ; < ; ( 1 , 2 , 0 )
( 1 , 2 , 0 ) ; >= ; ( 1 , 2 )
( 1 , 2 ) ; raises ; ( 1 , 'a' )
( 2 , 2 ) ; >= ; ( 1 , 2 , 0 )
( 1 , ) ; >= ; ( )
( ) ; < ; ( 1 , )
( ) ; >= ; ( )
( ) ; raises ; [ ]
{ } ; raises ; { }
[ None ] ; >= ; [ None ]
[ None ] ; raises ; [ 1 ]
[ { } ] ; < ; [ { } , 1 ]
[ { } , 1 ] ; >= ; [ { } ]
[ { } ] ; raises ; [ None ]
[ 1 , [ 2 ] ] ; < ; [ 1 , [ 3 ] ]
[ 1 , [ 3 ] ] ; >= ; [ 1 , [ 2 ] ]
[ 1 , [ 2 ] ] ; raises ; [ 1 , [ 'a' ] ]
( ( 1 , 2 ) , ) ; >= ; ( ( 1 , ) , None )
( 1 , ( 2 , 'a' ) ) ; raises ; ( 1 , ( 2 , 3 ) )
";

// What the word of a row says of its two values.
fn answer(word: &str) -> Result<bool, Class> {
    match word {
        "<" => Ok(true),
        ">=" => Ok(false),
        _ => Err(Class::TypeError),
    }
}

/// Whether two values are ordered as the word between them says.
pub(crate) fn is_ordered(a: &Value, word: &str, b: &Value) -> bool {
    less(a, b) == answer(word)
}

#[test]
fn values_are_ordered(rt: HostRuntime) {
    each_row_holds(&rt, rt.alloc(), ORDER, 37);
}

use super::reader::value_at;
use super::{are_due, args_at, cell};
use std::alloc::Global;
use tx_methods::{items_of, iterate};
use tx_text::NoMemory;
use tx_tree::walk_named;

// A walk, its arguments, and its items; a view's argument is the dictionary.
const WALKS: &str = "
range ; [ 3 ] ; [ 0 , 1 , 2 ]
range ; [ 0 ] ; [ ]
range ; [ -3 ] ; [ ]
range ; [ 1 , 4 ] ; [ 1 , 2 , 3 ]
range ; [ 4 , 1 ] ; [ ]
range ; [ 1 , 1 ] ; [ ]
range ; [ 0 , 9 , 3 ] ; [ 0 , 3 , 6 ]
range ; [ 0 , 10 , 3 ] ; [ 0 , 3 , 6 , 9 ]
range ; [ 5 , 0 , -2 ] ; [ 5 , 3 , 1 ]
range ; [ 5 , 1 , -2 ] ; [ 5 , 3 ]
range ; [ 0 , 5 , -1 ] ; [ ]
range ; [ 5 , 0 , 1 ] ; [ ]
range ; [ -2 , 3 ] ; [ -2 , -1 , 0 , 1 , 2 ]
range ; [ True ] ; [ 0 ]
range ; [ False , True ] ; [ 0 ]
range ; [ 0 , 5 , True ] ; [ 0 , 1 , 2 , 3 , 4 ]
range ; [ 170141183460469231731687303715884105725 , 170141183460469231731687303715884105727 ] ; [ 170141183460469231731687303715884105725 , 170141183460469231731687303715884105726 ]
range ; [ 170141183460469231731687303715884105725 , 170141183460469231731687303715884105727 , 5 ] ; [ 170141183460469231731687303715884105725 ]
range ; [ -170141183460469231731687303715884105727 , -170141183460469231731687303715884105728 , -1 ] ; [ -170141183460469231731687303715884105727 ]
range ; [ -170141183460469231731687303715884105726 , -170141183460469231731687303715884105728 , -7 ] ; [ -170141183460469231731687303715884105726 ]
range ; [ 170141183460469231731687303715884105727 , -170141183460469231731687303715884105728 , -170141183460469231731687303715884105727 ] ; [ 170141183460469231731687303715884105727 , 0 , -170141183460469231731687303715884105727 ]
range ; [ -170141183460469231731687303715884105728 , 170141183460469231731687303715884105727 , 170141183460469231731687303715884105727 ] ; [ -170141183460469231731687303715884105728 , -1 , 170141183460469231731687303715884105726 ]
range ; [ 0 , 3 , 0 ] ; ValueError
range ; [ 3 , 0 , 0 ] ; ValueError
range ; [ 0 , 0 , False ] ; ValueError
range ; [ None ] ; TypeError
range ; [ '3' ] ; TypeError
range ; [ 1 , 'a' ] ; TypeError
range ; [ 'a' , 1 ] ; TypeError
range ; [ 1 , 2 , None ] ; TypeError
range ; [ 1 , None , 0 ] ; TypeError
range ; [ [ ] , 1 , 1 ] ; TypeError
range ; [ ( ) , ( ) ] ; TypeError
range ; [ { } ] ; TypeError
range ; [ 1 , 2 , 'a' ] ; TypeError
range ; [ 1048577 ] ; ProfileError
range ; [ 0 , 2097154 , 2 ] ; ProfileError
range ; [ -1 , -1048579 , -1 ] ; ProfileError
range ; [ -170141183460469231731687303715884105728 , 170141183460469231731687303715884105727 ] ; ProfileError
range ; [ 170141183460469231731687303715884105727 , -170141183460469231731687303715884105728 , -1 ] ; ProfileError
range ; [ 5 , -1000000000000000000000000000000 , -1 ] ; ProfileError
enumerate ; [ 'ab' ] ; [ ( 0 , 'a' ) , ( 1 , 'b' ) ]
enumerate ; [ '' ] ; [ ]
enumerate ; [ ( 1 , 'a' ) ] ; [ ( 0 , 1 ) , ( 1 , 'a' ) ]
enumerate ; [ [ [ ] , None ] ] ; [ ( 0 , [ ] ) , ( 1 , None ) ]
enumerate ; [ { 'k' : 1 , 2 : 3 } ] ; [ ( 0 , 'k' ) , ( 1 , 2 ) ]
enumerate ; [ { } ] ; [ ]
enumerate ; [ None ] ; TypeError
enumerate ; [ 1 ] ; TypeError
enumerate ; [ True ] ; TypeError
zip ; [ 'ab' , [ 1 ] ] ; [ ( 'a' , 1 ) ]
zip ; [ [ 1 , 2 ] , ( 3 , 4 , 5 ) ] ; [ ( 1 , 3 ) , ( 2 , 4 ) ]
zip ; [ '' , 'a' ] ; [ ]
zip ; [ { 'k' : 1 } , 'xy' ] ; [ ( 'k' , 'x' ) ]
zip ; [ ( ) , ( ) ] ; [ ]
zip ; [ [ 1 ] , None ] ; TypeError
zip ; [ None , [ 1 ] ] ; TypeError
zip ; [ 1 , 2 ] ; TypeError
zip ; [ 'a' , True ] ; TypeError
zip ; [ [ [ 1 ] ] , ( { } , ) ] ; [ ( [ 1 ] , { } ) ]
items ; [ { } ] ; [ ]
items ; [ { 'a' : 1 } ] ; [ ( 'a' , 1 ) ]
items ; [ { 'a' : 1 , 2 : [ 3 ] , ( ) : { } } ] ; [ ( 'a' , 1 ) , ( 2 , [ 3 ] ) , ( ( ) , { } ) ]
keys ; [ { } ] ; [ ]
keys ; [ { 'a' : 1 } ] ; [ 'a' ]
keys ; [ { 'a' : 1 , 2 : [ 3 ] , ( ) : { } } ] ; [ 'a' , 2 , ( ) ]
values ; [ { } ] ; [ ]
values ; [ { 'a' : 1 } ] ; [ 1 ]
values ; [ { 'a' : 1 , 2 : [ 3 ] , ( ) : { } } ] ; [ 1 , [ 3 ] , { } ]";

// A value, and its items.
const ITERATES: &str = "
'a\u{df}\u{20ac}' ; [ 'a' , '\u{df}' , '\u{20ac}' ]
'' ; [ ]
( 1 , ( 2 , ) ) ; [ 1 , ( 2 , ) ]
[ ] ; [ ]
[ None ] ; [ None ]
{ 'a' : 1 , 2 : 3 } ; [ 'a' , 2 ]
{ } ; [ ]
None ; TypeError
True ; TypeError
0 ; TypeError";

fn walks(alloc: Global, row: &str) -> Result<bool, NoMemory> {
    match walk_named(cell(row, 0)) {
        Some(w) => are_due(
            alloc,
            items_of(alloc, w, &args_at(alloc, row, 1)?),
            cell(row, 2),
        ),
        None => Ok(false),
    }
}

fn iterates(alloc: Global, row: &str) -> Result<bool, NoMemory> {
    are_due(
        alloc,
        iterate(alloc, &value_at(alloc, row, 0)?),
        cell(row, 1),
    )
}

#[test]
fn walks_have_items(rt: HostRuntime) {
    let mut rows = 0usize;
    for row in WALKS.lines().skip(1) {
        assert!(rt; walks(rt.alloc(), row) == Ok(true), "{row}");
        rows = rows.wrapping_add(1);
    }
    assert!(rt; rows == 69);
}

#[test]
fn values_have_items(rt: HostRuntime) {
    let mut rows = 0usize;
    for row in ITERATES.lines().skip(1) {
        assert!(rt; iterates(rt.alloc(), row) == Ok(true), "{row}");
        rows = rows.wrapping_add(1);
    }
    assert!(rt; rows == 10);
}

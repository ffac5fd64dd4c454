use super::reader::value_at;
use super::{args_at, cell};
use std::alloc::Global;
use tx_base::Class;
use tx_methods::{builtin, items_of, method};
use tx_text::NoMemory;
use tx_tree::{builtin_named, method_named, walk_named};
use tx_values::OpError;

// Calls on both sides of the limits: a value that has the method (None for a function or a walk), a word, the arguments, and whether
// there is a value, ProfileError or another class.
const HEAVY: &str = "
None ; list ; [ @a524289 ] ; ProfileError
None ; list ; [ [ @a1048575 ] ] ; value
None ; list ; [ { @a1048575 : 1 } ] ; value
None ; tuple ; [ { 1 : @a1048575 } ] ; value
None ; str ; [ @a1048576 ] ; value
None ; enumerate ; [ [ @a1048574 ] ] ; value
None ; enumerate ; [ [ @a1048575 ] ] ; ProfileError
None ; zip ; [ [ @a524287 ] , [ @b524287 ] ] ; value
None ; zip ; [ [ @a524287 ] , [ @b524288 ] ] ; ProfileError
None ; zip ; [ [ 1 ] , ( 2 , @b1048573 ) ] ; value
None ; items ; [ { 1 : @a1048574 } ] ; value
None ; items ; [ { @a1048575 : 1 } ] ; ProfileError
None ; values ; [ { @a1 : @a1048574 } ] ; value
None ; range ; [ 1048577 ] ; ProfileError
@,1048576 ; split ; [ ',' ] ; ProfileError
@a1048575 ; split ; [ ',' ] ; value
@a1048576 ; split ; [ ] ; ProfileError
@ß524289 ; upper ; [ ] ; ProfileError
@a1024 ; replace ; [ 'a' , @b1024 ] ; value
@a1024 ; replace ; [ 'a' , @b1025 ] ; ProfileError
@a1024 ; replace ; [ '' , @b1023 ] ; ProfileError
'1' ; zfill ; [ 1048576 ] ; value
'1' ; zfill ; [ 1048577 ] ; ProfileError
@1524288 ; join ; [ ( @a262144 , @a262144 ) ] ; value
@1524289 ; join ; [ ( @a262144 , @a262144 ) ] ; ProfileError
@1524289 ; join ; [ ( @a262144 , @a262144 , 1 ) ] ; other
@1524286 ; join ; [ 'abc' ] ; value
@1524287 ; join ; [ 'abc' ] ; ProfileError
@1524288 ; join ; [ { @a262144 : 1 , @b262144 : 2 } ] ; value
@1524289 ; join ; [ { @a262144 : 1 , @b262144 : 2 } ] ; ProfileError
( @a1048574 , 1 ) ; count ; [ 1 ] ; value
{ 1 : @a1048575 } ; get ; [ 1 ] ; value";

// Whether there is an answer, ProfileError, or another class.
fn outcome<T: Drop>(answer: Result<T, OpError>) -> &'static str {
    match answer {
        Ok(_) => "value",
        Err(OpError::Raise(Class::ProfileError)) => "ProfileError",
        Err(_) => "other",
    }
}

fn is_so(alloc: Global, row: &str) -> Result<bool, NoMemory> {
    let args = args_at(alloc, row, 2)?;
    let (word, due) = (cell(row, 1), cell(row, 3));
    if let Some(b) = builtin_named(word) {
        return Ok(outcome(builtin(alloc, b, &args)) == due);
    }
    if let Some(w) = walk_named(word) {
        return Ok(outcome(items_of(alloc, w, &args)) == due);
    }
    match method_named(word) {
        Some(m) => Ok(outcome(method(alloc, m, &value_at(alloc, row, 0)?, &args)) == due),
        None => Ok(false),
    }
}

#[test]
fn limits_are_kept(rt: HostRuntime) {
    let mut rows = 0usize;
    for row in HEAVY.lines().skip(1) {
        assert!(rt; is_so(rt.alloc(), row) == Ok(true), "{row}");
        rows = rows.wrapping_add(1);
    }
    assert!(rt; rows == 32);
}

use super::{applied, cell, value_of, written};
use std::alloc::Global;
use tx_text::NoMemory;

// The right operands, of each kind one.
const RIGHTS: &str = "None ; True ; 3 ; 'ab' ; ( 1 , 'ab' ) ; [ 'ab' , 1 ] ; { 'ab' : 3 }";

// An operator, a left operand, and the answers for the right operands in turn.
const PAIRS: &str = "
+ ; None ; TypeError ; TypeError ; TypeError ; TypeError ; TypeError ; TypeError ; TypeError
+ ; True ; TypeError ; 2 ; 4 ; TypeError ; TypeError ; TypeError ; TypeError
+ ; 3 ; TypeError ; 4 ; 6 ; TypeError ; TypeError ; TypeError ; TypeError
+ ; 'ab' ; TypeError ; TypeError ; TypeError ; 'abab' ; TypeError ; TypeError ; TypeError
+ ; ( 1 , 'ab' ) ; TypeError ; TypeError ; TypeError ; TypeError ; ( 1 , 'ab' , 1 , 'ab' ) ; TypeError ; TypeError
+ ; [ 'ab' , 1 ] ; TypeError ; TypeError ; TypeError ; TypeError ; TypeError ; [ 'ab' , 1 , 'ab' , 1 ] ; TypeError
+ ; { 'ab' : 3 } ; TypeError ; TypeError ; TypeError ; TypeError ; TypeError ; TypeError ; TypeError
- ; None ; TypeError ; TypeError ; TypeError ; TypeError ; TypeError ; TypeError ; TypeError
- ; True ; TypeError ; 0 ; -2 ; TypeError ; TypeError ; TypeError ; TypeError
- ; 3 ; TypeError ; 2 ; 0 ; TypeError ; TypeError ; TypeError ; TypeError
- ; 'ab' ; TypeError ; TypeError ; TypeError ; TypeError ; TypeError ; TypeError ; TypeError
- ; ( 1 , 'ab' ) ; TypeError ; TypeError ; TypeError ; TypeError ; TypeError ; TypeError ; TypeError
- ; [ 'ab' , 1 ] ; TypeError ; TypeError ; TypeError ; TypeError ; TypeError ; TypeError ; TypeError
- ; { 'ab' : 3 } ; TypeError ; TypeError ; TypeError ; TypeError ; TypeError ; TypeError ; TypeError
* ; None ; TypeError ; TypeError ; TypeError ; TypeError ; TypeError ; TypeError ; TypeError
* ; True ; TypeError ; 1 ; 3 ; 'ab' ; ( 1 , 'ab' ) ; [ 'ab' , 1 ] ; TypeError
* ; 3 ; TypeError ; 3 ; 9 ; 'ababab' ; ( 1 , 'ab' , 1 , 'ab' , 1 , 'ab' ) ; [ 'ab' , 1 , 'ab' , 1 , 'ab' , 1 ] ; TypeError
* ; 'ab' ; TypeError ; 'ab' ; 'ababab' ; TypeError ; TypeError ; TypeError ; TypeError
* ; ( 1 , 'ab' ) ; TypeError ; ( 1 , 'ab' ) ; ( 1 , 'ab' , 1 , 'ab' , 1 , 'ab' ) ; TypeError ; TypeError ; TypeError ; TypeError
* ; [ 'ab' , 1 ] ; TypeError ; [ 'ab' , 1 ] ; [ 'ab' , 1 , 'ab' , 1 , 'ab' , 1 ] ; TypeError ; TypeError ; TypeError ; TypeError
* ; { 'ab' : 3 } ; TypeError ; TypeError ; TypeError ; TypeError ; TypeError ; TypeError ; TypeError
// ; None ; TypeError ; TypeError ; TypeError ; TypeError ; TypeError ; TypeError ; TypeError
// ; True ; TypeError ; 1 ; 0 ; TypeError ; TypeError ; TypeError ; TypeError
// ; 3 ; TypeError ; 3 ; 1 ; TypeError ; TypeError ; TypeError ; TypeError
// ; 'ab' ; TypeError ; TypeError ; TypeError ; TypeError ; TypeError ; TypeError ; TypeError
// ; ( 1 , 'ab' ) ; TypeError ; TypeError ; TypeError ; TypeError ; TypeError ; TypeError ; TypeError
// ; [ 'ab' , 1 ] ; TypeError ; TypeError ; TypeError ; TypeError ; TypeError ; TypeError ; TypeError
// ; { 'ab' : 3 } ; TypeError ; TypeError ; TypeError ; TypeError ; TypeError ; TypeError ; TypeError
% ; None ; TypeError ; TypeError ; TypeError ; TypeError ; TypeError ; TypeError ; TypeError
% ; True ; TypeError ; 0 ; 1 ; TypeError ; TypeError ; TypeError ; TypeError
% ; 3 ; TypeError ; 0 ; 0 ; TypeError ; TypeError ; TypeError ; TypeError
% ; 'ab' ; ProfileError ; ProfileError ; ProfileError ; ProfileError ; ProfileError ; ProfileError ; ProfileError
% ; ( 1 , 'ab' ) ; TypeError ; TypeError ; TypeError ; TypeError ; TypeError ; TypeError ; TypeError
% ; [ 'ab' , 1 ] ; TypeError ; TypeError ; TypeError ; TypeError ; TypeError ; TypeError ; TypeError
% ; { 'ab' : 3 } ; TypeError ; TypeError ; TypeError ; TypeError ; TypeError ; TypeError ; TypeError
== ; None ; True ; False ; False ; False ; False ; False ; False
== ; True ; False ; True ; False ; False ; False ; False ; False
== ; 3 ; False ; False ; True ; False ; False ; False ; False
== ; 'ab' ; False ; False ; False ; True ; False ; False ; False
== ; ( 1 , 'ab' ) ; False ; False ; False ; False ; True ; False ; False
== ; [ 'ab' , 1 ] ; False ; False ; False ; False ; False ; True ; False
== ; { 'ab' : 3 } ; False ; False ; False ; False ; False ; False ; True
< ; None ; TypeError ; TypeError ; TypeError ; TypeError ; TypeError ; TypeError ; TypeError
< ; True ; TypeError ; False ; True ; TypeError ; TypeError ; TypeError ; TypeError
< ; 3 ; TypeError ; False ; False ; TypeError ; TypeError ; TypeError ; TypeError
< ; 'ab' ; TypeError ; TypeError ; TypeError ; False ; TypeError ; TypeError ; TypeError
< ; ( 1 , 'ab' ) ; TypeError ; TypeError ; TypeError ; TypeError ; False ; TypeError ; TypeError
< ; [ 'ab' , 1 ] ; TypeError ; TypeError ; TypeError ; TypeError ; TypeError ; False ; TypeError
< ; { 'ab' : 3 } ; TypeError ; TypeError ; TypeError ; TypeError ; TypeError ; TypeError ; TypeError
<= ; None ; TypeError ; TypeError ; TypeError ; TypeError ; TypeError ; TypeError ; TypeError
<= ; True ; TypeError ; True ; True ; TypeError ; TypeError ; TypeError ; TypeError
<= ; 3 ; TypeError ; False ; True ; TypeError ; TypeError ; TypeError ; TypeError
<= ; 'ab' ; TypeError ; TypeError ; TypeError ; True ; TypeError ; TypeError ; TypeError
<= ; ( 1 , 'ab' ) ; TypeError ; TypeError ; TypeError ; TypeError ; True ; TypeError ; TypeError
<= ; [ 'ab' , 1 ] ; TypeError ; TypeError ; TypeError ; TypeError ; TypeError ; True ; TypeError
<= ; { 'ab' : 3 } ; TypeError ; TypeError ; TypeError ; TypeError ; TypeError ; TypeError ; TypeError
> ; None ; TypeError ; TypeError ; TypeError ; TypeError ; TypeError ; TypeError ; TypeError
> ; True ; TypeError ; False ; False ; TypeError ; TypeError ; TypeError ; TypeError
> ; 3 ; TypeError ; True ; False ; TypeError ; TypeError ; TypeError ; TypeError
> ; 'ab' ; TypeError ; TypeError ; TypeError ; False ; TypeError ; TypeError ; TypeError
> ; ( 1 , 'ab' ) ; TypeError ; TypeError ; TypeError ; TypeError ; False ; TypeError ; TypeError
> ; [ 'ab' , 1 ] ; TypeError ; TypeError ; TypeError ; TypeError ; TypeError ; False ; TypeError
> ; { 'ab' : 3 } ; TypeError ; TypeError ; TypeError ; TypeError ; TypeError ; TypeError ; TypeError
>= ; None ; TypeError ; TypeError ; TypeError ; TypeError ; TypeError ; TypeError ; TypeError
>= ; True ; TypeError ; True ; False ; TypeError ; TypeError ; TypeError ; TypeError
>= ; 3 ; TypeError ; True ; True ; TypeError ; TypeError ; TypeError ; TypeError
>= ; 'ab' ; TypeError ; TypeError ; TypeError ; True ; TypeError ; TypeError ; TypeError
>= ; ( 1 , 'ab' ) ; TypeError ; TypeError ; TypeError ; TypeError ; True ; TypeError ; TypeError
>= ; [ 'ab' , 1 ] ; TypeError ; TypeError ; TypeError ; TypeError ; TypeError ; True ; TypeError
>= ; { 'ab' : 3 } ; TypeError ; TypeError ; TypeError ; TypeError ; TypeError ; TypeError ; TypeError
in ; None ; TypeError ; TypeError ; TypeError ; TypeError ; False ; False ; False
in ; True ; TypeError ; TypeError ; TypeError ; TypeError ; True ; True ; False
in ; 3 ; TypeError ; TypeError ; TypeError ; TypeError ; False ; False ; False
in ; 'ab' ; TypeError ; TypeError ; TypeError ; True ; True ; True ; True
in ; ( 1 , 'ab' ) ; TypeError ; TypeError ; TypeError ; TypeError ; False ; False ; False
in ; [ 'ab' , 1 ] ; TypeError ; TypeError ; TypeError ; TypeError ; False ; False ; TypeError
in ; { 'ab' : 3 } ; TypeError ; TypeError ; TypeError ; TypeError ; False ; False ; TypeError
not_in ; None ; TypeError ; TypeError ; TypeError ; TypeError ; True ; True ; True
not_in ; True ; TypeError ; TypeError ; TypeError ; TypeError ; False ; False ; True
not_in ; 3 ; TypeError ; TypeError ; TypeError ; TypeError ; True ; True ; True
not_in ; 'ab' ; TypeError ; TypeError ; TypeError ; False ; False ; False ; False
not_in ; ( 1 , 'ab' ) ; TypeError ; TypeError ; TypeError ; TypeError ; True ; True ; True
not_in ; [ 'ab' , 1 ] ; TypeError ; TypeError ; TypeError ; TypeError ; True ; True ; TypeError
not_in ; { 'ab' : 3 } ; TypeError ; TypeError ; TypeError ; TypeError ; True ; True ; TypeError
[] ; None ; TypeError ; TypeError ; TypeError ; TypeError ; TypeError ; TypeError ; TypeError
[] ; True ; TypeError ; TypeError ; TypeError ; TypeError ; TypeError ; TypeError ; TypeError
[] ; 3 ; TypeError ; TypeError ; TypeError ; TypeError ; TypeError ; TypeError ; TypeError
[] ; 'ab' ; TypeError ; 'b' ; IndexError ; TypeError ; TypeError ; TypeError ; TypeError
[] ; ( 1 , 'ab' ) ; TypeError ; 'ab' ; IndexError ; TypeError ; TypeError ; TypeError ; TypeError
[] ; [ 'ab' , 1 ] ; TypeError ; 1 ; IndexError ; TypeError ; TypeError ; TypeError ; TypeError
[] ; { 'ab' : 3 } ; KeyError ; KeyError ; KeyError ; 3 ; KeyError ; TypeError ; TypeError";

// Whether the answer for the right operand at a place is what stands there.
fn holds_at(alloc: Global, row: &str, at: usize) -> Result<bool, NoMemory> {
    let a = value_of(alloc, cell(row, 1))?;
    let b = value_of(alloc, cell(RIGHTS, at))?;
    let answer = written(alloc, applied(alloc, cell(row, 0), &a, &b))?;
    Ok(answer.as_str() == cell(row, at.wrapping_add(2)))
}

fn holds(alloc: Global, row: &str) -> Result<bool, NoMemory> {
    for at in 0..7 {
        if !holds_at(alloc, row, at)? {
            return Ok(false);
        }
    }
    Ok(true)
}

#[test]
fn each_pair_of_kinds_has_its_answer(rt: HostRuntime) {
    let mut rows = 0usize;
    for row in PAIRS.lines().skip(1) {
        assert!(rt; holds(rt.alloc(), row) == Ok(true), "{row}");
        rows = rows.wrapping_add(1);
    }
    assert!(rt; rows == 91);
}

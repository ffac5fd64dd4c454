// The items of `range`.
ghost use Rattle.std.specs.Prelude.{◌≡◌, ◌≢◌, ◌≤◌, ◌+ℤ◌, ◌∷◌, [], Ok, Err, IfOk, map, pos, true};
ghost use Rattle.tx_base.specs.declared.class.Class.{Class};
ghost use Rattle.tx_base.specs.Width.{is_128_bit};
ghost use Rattle.tx_num.specs.Range.{count_between, items_from};
ghost use Rattle.tx_values.specs.declared.value.Value.TheVariants as value;
ghost use Rattle.tx_methods.specs.Walks.{range_items, range_of};

use crate::arguments::a_number;
use std::alloc::Global;
use tx_base::Class;
use tx_num::{RangeLength, add, range_length, ranges_stop_before_the_end};
use tx_text::NoMemory;
use tx_values::{Items, OpError, Value};

// The item behind another, or itself where there is none of 128 bits, as it may be behind the last item.
fn next_of(item: i128, step: i128) -> i128
    ensures { is_128_bit (item +ℤ step) ≡ true → result ≡ item +ℤ step }
{
    match add(item, step) {
        Some(next) => next,
        None => item,
    }
}

// So many integers, from the first one by a step; those of a range, so that each has 128 bits.
fn stepped(alloc: Global, first: i128, end: i128, step: i128, count: u32) -> Result<Items, NoMemory>
    requires some { step ≢ pos 0 }
    requires within { count ≤ count_between first end step }
    ensures { IfOk result (λ items. items ≡ map value.Int (items_from first step count)) }
{
    ranges_stop_before_the_end();
    let mut made = Vec::with_capacity(alloc, count as usize)?;
    let mut item = first;
    for _turn in 0..count {
        made.push(Value::Int(item))?;
        item = next_of(item, step);
    }
    Ok(Items::from_vec(made))
}

// `range(first, end, step)`.
fn range_of(alloc: Global, first: i128, end: i128, step: i128) -> Result<Items, OpError>
    ensures value { IfOk result (λ items. range_of first end step ≡ Ok items) }
    ensures raise { (c : Class) → result ≡ Err (OpError.Raise c) → range_of first end step ≡ Err c }
{
    match range_length(first, end, step) {
        RangeLength::Count(count) => Ok(stepped(alloc, first, end, step, count)?),
        RangeLength::NoStep => Err(OpError::Raise(Class::ValueError)),
        RangeLength::Past => Err(OpError::Raise(Class::ProfileError)),
    }
}

// `range` of three numbers.
#[tactic(auto, using(crate::proofs::RangeArguments::three_numbers))]
fn range_of_three(alloc: Global, a: &Value, b: &Value, c: &Value) -> Result<Items, OpError>
    ensures value { IfOk result (λ items. range_items (a.now ∷ b.now ∷ c.now ∷ []) ≡ Ok items) }
    ensures raise { (class : Class) → result ≡ Err (OpError.Raise class) → range_items (a.now ∷ b.now ∷ c.now ∷ []) ≡ Err class }
{
    let first = a_number(a)?;
    let end = a_number(b)?;
    let step = a_number(c)?;
    range_of(alloc, first, end, step)
}

/// `range` of one, two or three numbers.
pub(crate) fn range_items(alloc: Global, args: &[Value]) -> Result<Items, OpError>
    ensures value { IfOk result (λ items. range_items args.now ≡ Ok items) }
    ensures raise { (c : Class) → result ≡ Err (OpError.Raise c) → range_items args.now ≡ Err c }
{
    match args {
        [] => Err(OpError::Raise(Class::TypeError)),
        [a] => range_of(alloc, 0, a_number(a)?, 1),
        [a, b] => {
            let first = a_number(a)?;
            range_of(alloc, first, a_number(b)?, 1)
        }
        [a, b, c] => range_of_three(alloc, a, b, c),
        _ => Err(OpError::Raise(Class::TypeError)),
    }
}

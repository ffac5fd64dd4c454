// Lists of copies, which take their room once.
ghost use Rattle.std.specs.Prelude.{◌≡◌, ◌++◌, IfOk, OnOk};
ghost use Rattle.tx_ops.specs.Binary.{copies};

use std::alloc::Global;
use tx_text::NoMemory;
use tx_values::{Items, Value, copy};

// Adds copies of some values.
fn add_copies(alloc: Global, made: &mut Vec<Value>, items: &[Value]) -> Result<(), NoMemory>
    ensures { OnOk result (made.new.items ≡ made.old.items ++ items.now) }
{
    for item in items {
        made.push(copy(alloc, item)?)?;
    }
    Ok(())
}

/// Copies of some values, and then of some others.
pub(crate) fn copy_of_both(alloc: Global, xs: &[Value], ys: &[Value]) -> Result<Items, NoMemory>
    ensures { IfOk result (λ made. made ≡ xs.now ++ ys.now) }
{
    let mut made = Vec::with_capacity(alloc, xs.len().saturating_add(ys.len()))?;
    add_copies(alloc, &mut made, xs)?;
    add_copies(alloc, &mut made, ys)?;
    Ok(Items::from_vec(made))
}

/// Copies of some values, so many times. Of no values it takes no time, however often.
pub(crate) fn copies_of(alloc: Global, items: &[Value], times: usize) -> Result<Items, NoMemory>
    ensures { IfOk result (λ made. made ≡ copies times items.now) }
{
    if items.is_empty() {
        return Ok(Items::new(alloc));
    }
    let mut made = Vec::with_capacity(alloc, items.len().saturating_mul(times))?;
    'copies: for _turn in 0..times {
        add_copies(alloc, &mut made, items)?;
    }
    Ok(Items::from_vec(made))
}

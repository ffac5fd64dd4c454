// Frames: the values of slots.
ghost use Rattle.std.specs.Prelude.{◌≡◌, ◌<◌, length, nat_eq, encode_utf8_all, IfOk, OnOk, Ok, Err};
ghost use Rattle.tx_base.specs.declared.class.Class.{Class};
ghost use Rattle.tx_tree.specs.Words.{same_text};
ghost use Rattle.tx_names.specs.View.{target_of};
ghost use Rattle.tx_meaning.specs.Maps.{no_locals, put, put_all, read_cell, read_local, row_of, take};
ghost use Rattle.tx_interp.specs.Frames.{map_of, value_in};

use crate::held::{Held, seen};
use crate::leaf::copied;
use std::alloc::Global;
use tx_base::Class;
use tx_methods::iterate;
use tx_names::BoundTarget;
use tx_text::{Bytes, NoMemory, PyText};
use tx_values::{OpError, Value, copy};

/// The value of each slot, if it has one; a slot past the end has none.
pub(crate) type Frame<'a> = Vec<Option<Held<'a>>>;

/// How a statement ended that raised nothing.
#[derive(Drop)]
pub(crate) enum End {
    GoesOn,
    Breaks,
    Continues,
    GivesBack(Value),
}

/// A frame in which no slot has a value.
#[tactic(auto, using(crate::proofs::Slots::map_empty))]
pub(crate) fn empty_frame<'a>(alloc: Global) -> Frame<'a>
    ensures { map_of result.items ≡ no_locals nat_eq }
{
    Vec::new(alloc)
}

/// The value of a local name.
#[tactic(auto, unfolding(crate::specs::Frames::map_of))]
pub(crate) fn local<'b>(frame: &'b Frame<'_>, slot: usize) -> Result<&'b Value, OpError>
    ensures value { IfOk result (λ v. read_local (map_of frame.now.items slot) ≡ Ok v.now) }
    ensures raise { (c : Class) → result ≡ Err (OpError.Raise c) → read_local (map_of frame.now.items slot) ≡ Err c }
{
    match frame.get(slot) {
        Some(Some(held)) => Ok(seen(held)),
        Some(None) => Err(OpError::Raise(Class::UnboundLocalError)),
        None => Err(OpError::Raise(Class::UnboundLocalError)),
    }
}

/// The value of a local name, made anew.
pub(crate) fn local_copy(alloc: Global, frame: &Frame<'_>, slot: usize) -> Result<Value, OpError>
    ensures value { IfOk result (λ v. read_local (map_of frame.now.items slot) ≡ Ok v) }
    ensures raise { (c : Class) → result ≡ Err (OpError.Raise c) → read_local (map_of frame.now.items slot) ≡ Err c }
{
    let value = local(frame, slot)?;
    Ok(copied(alloc, value)?)
}

// Makes room for a slot.
#[tactic(auto, using(crate::proofs::Slots::frames))]
fn reach(frame: &mut Frame<'_>, slot: usize) -> Result<(), NoMemory>
    ensures same { OnOk result (map_of frame.new.items ≡ map_of frame.old.items) }
    ensures room { OnOk result (slot < length frame.new.items) }
{
    let missing = slot.saturating_add(1).saturating_sub(frame.len());
    for _slot in 0..missing {
        frame.push(None)?;
    }
    Ok(())
}

/// Gives a slot a value.
#[tactic(auto, using(crate::proofs::Slots::frames))]
pub(crate) fn put<'a>(frame: &mut Frame<'a>, slot: usize, held: Held<'a>) -> Result<(), OpError>
    ensures ok { OnOk result (map_of frame.new.items ≡ put nat_eq slot (value_in held.entry) (map_of frame.old.items)) }
    ensures raise { (c : Class) → result ≡ Err (OpError.Raise c) → ⊥ }
{
    reach(frame, slot)?;
    frame[slot] = Some(held);
    Ok(())
}

/// Lends slots the values of a list, from the left.
#[tactic(auto, using(crate::proofs::Slots::frames))]
pub(crate) fn lend_each<'a>(
    frame: &mut Frame<'a>,
    slots: &[usize],
    values: &'a [Value],
) -> Result<(), OpError>
    ensures ok { OnOk result (map_of frame.new.items ≡ put_all nat_eq slots.now values.now (map_of frame.old.items)) }
    ensures raise { (c : Class) → result ≡ Err (OpError.Raise c) → ⊥ }
{
    for i in 0..slots.len().min(values.len()) {
        put(frame, slots[i], Held::Lent(&values[i]))?;
    }
    Ok(())
}

// Gives slots the values of a list, from the left.
#[tactic(auto, using(crate::proofs::Slots::frames))]
fn put_each(
    alloc: Global,
    frame: &mut Frame<'_>,
    slots: &[usize],
    values: &[Value],
) -> Result<(), OpError>
    ensures ok { OnOk result (map_of frame.new.items ≡ put_all nat_eq slots.now values.now (map_of frame.old.items)) }
    ensures raise { (c : Class) → result ≡ Err (OpError.Raise c) → ⊥ }
{
    for i in 0..slots.len().min(values.len()) {
        let value = copy(alloc, &values[i])?;
        put(frame, slots[i], Held::Own(value))?;
    }
    Ok(())
}

/// Gives a value to what is assigned to.
#[tactic(auto, using(crate::proofs::Slots::takes))]
pub(crate) fn take<'a>(
    alloc: Global,
    frame: &mut Frame<'a>,
    target: &BoundTarget,
    held: Held<'a>,
) -> Result<(), OpError>
    ensures ok { OnOk result (take nat_eq (target_of target.now) (value_in held.entry) (map_of frame.old.items) ≡ Ok (map_of frame.new.items)) }
    ensures raise { (c : Class) → result ≡ Err (OpError.Raise c) → take nat_eq (target_of target.now) (value_in held.entry) (map_of frame.old.items) ≡ Err c }
{
    match target {
        BoundTarget::One(slot) => put(frame, *slot, held),
        BoundTarget::Several(slots) => {
            let items = iterate(alloc, seen(&held))?;
            if items.len() != slots.len() {
                return Err(OpError::Raise(Class::ValueError));
            }
            put_each(alloc, frame, slots.as_slice(), items.as_slice())
        }
    }
}

/// Gives a value, made anew, to what is assigned to.
pub(crate) fn take_copy(
    alloc: Global,
    frame: &mut Frame<'_>,
    target: &BoundTarget,
    item: &Value,
) -> Result<(), OpError>
    ensures ok { OnOk result (take nat_eq (target_of target.now) item.now (map_of frame.old.items) ≡ Ok (map_of frame.new.items)) }
    ensures raise { (c : Class) → result ≡ Err (OpError.Raise c) → take nat_eq (target_of target.now) item.now (map_of frame.old.items) ≡ Err c }
{
    let value = copy(alloc, item)?;
    take(alloc, frame, target, Held::Own(value))
}

/// A frame with the same values, lent.
#[tactic(auto, using(crate::proofs::Slots::lending))]
pub(crate) fn lent_frame<'b>(alloc: Global, frame: &'b Frame<'_>) -> Result<Frame<'b>, NoMemory>
    ensures { IfOk result (λ f. map_of f.items ≡ map_of frame.now.items) }
{
    let mut out = Vec::with_capacity(alloc, frame.len())?;
    for slot in frame {
        match slot {
            Some(held) => out.push(Some(Held::Lent(seen(held))))?,
            None => out.push(None)?,
        }
    }
    Ok(out)
}

/// The cell of the first column of a name.
#[tactic(auto, using(crate::proofs::Rows::rows))]
pub(crate) fn cell<'b>(
    names: &[Bytes],
    cells: &'b [Value],
    column: &PyText,
) -> Result<&'b Value, OpError>
    ensures value { IfOk result (λ v. read_cell (row_of names.now cells.now column.now) ≡ Ok v.now) }
    ensures raise { (c : Class) → result ≡ Err (OpError.Raise c) → read_cell (row_of names.now cells.now column.now) ≡ Err c }
{
    for i in 0..names.len().min(cells.len()) {
        if is_named(&names[i], column) {
            return Ok(&cells[i]);
        }
    }
    Err(OpError::Raise(Class::KeyError))
}

/// The cell of the first column of a name, made anew.
pub(crate) fn cell_copy(
    alloc: Global,
    names: &[Bytes],
    cells: &[Value],
    column: &PyText,
) -> Result<Value, OpError>
    ensures value { IfOk result (λ v. read_cell (row_of names.now cells.now column.now) ≡ Ok v) }
    ensures raise { (c : Class) → result ≡ Err (OpError.Raise c) → read_cell (row_of names.now cells.now column.now) ≡ Err c }
{
    let value = cell(names, cells, column)?;
    Ok(copied(alloc, value)?)
}

// Whether a column has this name.
fn is_named(name: &Bytes, column: &PyText) -> bool
    ensures { result ≡ same_text name.now (encode_utf8_all column.now) }
{
    name.as_slice() == column.as_str().as_bytes()
}

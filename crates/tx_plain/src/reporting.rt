// Entries of the report.
ghost use Rattle.std.specs.Prelude.{◌≡◌, ◌+◌, ◌==◌, ◌≤◌, ◌<◌, ◌^◌, ◌++◌, ◌∷◌, [], IfOk, OnOk, filter, length, map};
ghost use Rattle.tx_plain.specs.Laws.{by_operator};
ghost use Rattle.tx_plain.specs.Operators.{not_ignored, without_keys};
ghost use Rattle.tx_pipe.specs.Pipe.{handling_of};

use crate::row_wise::is_ignored;
use std::alloc::Global;
use tx_base::Class;
use tx_pipe::Handler;
use tx_report::{Entries, Entry};
use tx_text::NoMemory;
use tx_values::{Origin, Origins};

// Adds a copy of an entry.
fn add_copy(entry: &Entry, entries: &mut Entries) -> Result<(), NoMemory>
    ensures { OnOk result (entries.new ≡ entries.old ++ entry.now ∷ []) }
{
    entries.add(Entry {
        operator: entry.operator,
        class: entry.class,
        origin: entry.origin.copy()?,
    })
}

/// Adds all of them.
pub(crate) fn add_all(all: &[Entry], entries: &mut Entries) -> Result<(), NoMemory>
    ensures { OnOk result (entries.new ≡ entries.old ++ all.now) }
{
    for entry in all {
        add_copy(entry, entries)?;
    }
    Ok(())
}

// Adds those that an operator reported.
fn add_of(all: &[Entry], number: u32, entries: &mut Entries) -> Result<(), NoMemory>
    ensures { OnOk result (entries.new ≡ entries.old ++ filter (λ entry. entry.operator == number) all.now) }
{
    for entry in all {
        if entry.operator == number {
            add_copy(entry, entries)?;
        }
    }
    Ok(())
}

/// Adds entries by operator, of so many operators from a number on, and then in their order.
#[tactic(auto, using(crate::proofs::Ordering::ordering))]
pub(crate) fn add_by_operator(
    all: &[Entry],
    number: u32,
    count: usize,
    entries: &mut Entries,
) -> Result<(), NoMemory>
    requires { number + count < 2 ^ 32 }
    ensures { OnOk result (entries.new ≡ entries.old ++ by_operator number count all.now) }
{
    for turn in 0..count {
        add_of(all, number + turn as u32, entries)?;
    }
    Ok(())
}

// Adds an entry, where no `ignore` handler takes it.
fn add_unless_ignored(
    handlers: &[Handler],
    entry: &Entry,
    entries: &mut Entries,
) -> Result<(), NoMemory>
    ensures { OnOk result (entries.new ≡ entries.old ++ not_ignored (map handling_of handlers.now) (entry.now ∷ [])) }
{
    if is_ignored(handlers, entry.class) {
        return Ok(());
    }
    add_copy(entry, entries)
}

/// Adds those that no `ignore` handler takes.
pub(crate) fn add_not_ignored(
    handlers: &[Handler],
    all: &[Entry],
    entries: &mut Entries,
) -> Result<(), NoMemory>
    ensures { OnOk result (entries.new ≡ entries.old ++ not_ignored (map handling_of handlers.now) all.now) }
{
    for entry in all {
        add_unless_ignored(handlers, entry, entries)?;
    }
    Ok(())
}

// Adds the entry of a row whose key is not hashable, where no `ignore` handler takes it.
fn add_unhashable(
    number: u32,
    handlers: &[Handler],
    origin: &Origin,
    entries: &mut Entries,
) -> Result<(), NoMemory>
    ensures { OnOk result (entries.new ≡ entries.old ++ without_keys number (map handling_of handlers.now) (origin.now ∷ [])) }
{
    if is_ignored(handlers, Class::TypeError) {
        return Ok(());
    }
    entries.add(Entry {
        operator: number,
        class: Class::TypeError,
        origin: origin.copy()?,
    })
}

/// Adds the entries of the rows whose key is not hashable, where no `ignore` handler takes them.
pub(crate) fn add_without_keys(
    number: u32,
    handlers: &[Handler],
    origins: &Origins,
    entries: &mut Entries,
) -> Result<(), NoMemory>
    ensures { OnOk result (entries.new ≡ entries.old ++ without_keys number (map handling_of handlers.now) origins.now) }
{
    for origin in origins.as_slice() {
        add_unhashable(number, handlers, origin, entries)?;
    }
    Ok(())
}

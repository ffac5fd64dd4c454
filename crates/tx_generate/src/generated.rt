// The generated table: its rows, by the words that PCG draws.
ghost use Rattle.std.specs.Prelude.{◌≡◌, ◌++◌, decimal, IfOk, OnOk};
ghost use Rattle.rand_core.specs.Steps.{stream_of, steps_u32};
ghost use Rattle.rand_pcg.specs.Pcg.{pcg32};
ghost use Rattle.tx_generate.specs.Generated.{drawn, quantity_text, row_text, rows};
ghost use Rattle.tx_generate.specs.Laws.{Examples, FewerRowsStandInFront};

use itoa::Buffer;
use rand_core::{Rng, SeedableRng};
use rand_pcg::Pcg32;
use std::alloc::Global;
use tx_text::{Bytes, NoMemory};

// What is drawn for a row.
#[derive(Clone, Copy)]
struct Draw {
    amount: u32,
    price: u32,
    kind: u32,
}

// Draws for a row.
fn drawn(rng: &mut Pcg32) -> Draw
    ensures { (result, stream_of (steps_u32 pcg32) rng.new) ≡ drawn (stream_of (steps_u32 pcg32) rng.old) }
{
    let amount = rng.next_u32() % 1000;
    let price = rng.next_u32() % 1000;
    let kind = rng.next_u32() % 20;
    Draw {
        amount,
        price,
        kind,
    }
}

// Adds a number in decimal.
fn push_number(text: &mut Bytes, number: u32) -> Result<(), NoMemory>
    ensures { OnOk result (text.new ≡ text.old ++ decimal number) }
{
    text.push_all(Buffer::new().format(number).as_bytes())
}

// Adds the quantity of a row.
fn push_quantity(text: &mut Bytes, row: Draw) -> Result<(), NoMemory>
    ensures { OnOk result (text.new ≡ text.old ++ quantity_text row) }
{
    match row.kind {
        0 => Ok(()),
        1 => {
            text.push_all(b"x")?;
            push_number(text, row.amount)
        }
        _ => push_number(text, row.amount),
    }
}

// Adds a row.
fn push_row(text: &mut Bytes, number: u32, row: Draw) -> Result<(), NoMemory>
    ensures { OnOk result (text.new ≡ text.old ++ row_text number row) }
{
    push_number(text, number)?;
    text.push_all(b",")?;
    push_quantity(text, row)?;
    text.push_all(b",")?;
    push_number(text, row.price)?;
    text.push_all(b",n")?;
    push_number(text, row.amount % 7)?;
    text.push_all(b"\n")?;
    Ok(())
}

/// The bytes of a table with so many rows below its header, `id,qty,price,note`: the same at each call with the same seed,
/// on any machine. One row in about twenty has no quantity, and one in about twenty has a text in its place.
pub fn rows(alloc: Global, seed: u64, count: u32) -> Result<Bytes, NoMemory>
    ensures { IfOk result (λ text. text ≡ rows seed count) }
{
    let mut rng = Pcg32::seed_from_u64(seed);
    let mut text = Bytes::new(alloc);
    text.push_all(b"id,qty,price,note\n")?;
    'rows: for i in 0..count {
        let row = drawn(&mut rng);
        push_row(&mut text, i + 1, row)?;
    }
    Ok(text)
}

/// The tables that the definitions are tried on are right.
pub fn examples_hold()
    ensures { Examples }
{}

/// A table with fewer rows of the same seed is the beginning of one with more.
pub fn fewer_rows_stand_in_front()
    ensures { FewerRowsStandInFront }
{}

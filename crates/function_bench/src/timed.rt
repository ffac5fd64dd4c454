// The calls of a function on rows.
ghost use Rattle.std.specs.Prelude.{◌≡◌, ◌<◌};

use crate::job::Job;
use crate::reading::Table;
use crate::refusal::Refusal;
use crate::tally::Tally;
use std::alloc::Global;
use std::sync::ledger::{Blank, Ledger};
use tx_base::{Meter, Steps};
use tx_interp::{Arg, call};
use tx_names::Bound;

/// What counts the steps of calls.
#[derive(Drop)]
struct Counts<L: Ledger> {
    meter: Meter,
    steps: Steps<L>,
}

// Calls the function on each row.
fn each<L: Ledger>(
    alloc: Global,
    function: &Bound,
    table: &Table,
    counts: &mut Counts<L>,
    tally: &mut Tally,
) -> Result<(), Refusal> {
    for row in table.rows.as_slice() {
        let given = Arg::OfRow(row, &table.names);
        let answer = call(
            alloc,
            function,
            given,
            None,
            &mut counts.meter,
            &mut counts.steps,
        );
        tally.add(&answer)?;
    }
    Ok(())
}

// Calls the function on the first row, and adds the answer for each row.
fn first<L: Ledger>(
    alloc: Global,
    function: &Bound,
    table: &Table,
    counts: &mut Counts<L>,
    tally: &mut Tally,
) -> Result<(), Refusal> {
    let Some(row) = table.rows.get(0) else {
        return Ok(());
    };
    let given = Arg::OfRow(row, &table.names);
    let answer = call(
        alloc,
        function,
        given,
        None,
        &mut counts.meter,
        &mut counts.steps,
    );
    for _row in table.rows.as_slice() {
        tally.add(&answer)?;
    }
    Ok(())
}

/// The tally of a job that is done so many times over.
pub(crate) fn tallied<L: Ledger>(
    alloc: Global,
    job: Job,
    function: &Bound,
    table: &Table,
    rounds: u32,
    blank: Blank,
) -> Result<Tally, Refusal>
    requires name { blank.name ≡ L.name }
    requires parts { blank.parts ≡ L.parts }
    requires some { 0 < L.parts }
{
    let mut counts = Counts {
        meter: Meter::new(),
        steps: Steps::<L>::open(blank),
    };
    let mut tally = Tally::new(alloc);
    for _round in 0..rounds {
        match job {
            Job::Each => each(alloc, function, table, &mut counts, &mut tally)?,
            Job::First => first(alloc, function, table, &mut counts, &mut tally)?,
        }
    }
    Ok(tally)
}

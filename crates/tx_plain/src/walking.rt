// Rows through operators.
ghost use Rattle.std.specs.Prelude.{◌≡◌, ◌+◌, ◌-◌, ◌≤◌, ◌<◌, ◌^◌, IfOk, OnOk, length, slice_range};
ghost use Rattle.tx_pipe.specs.Lawful.{Lawful};
ghost use Rattle.tx_pipe.specs.Pipe.{pipe_of};
ghost use Rattle.tx_plain.specs.Counts.{Follows};
ghost use Rattle.tx_plain.specs.Calls.Tracking.{Tracks};
ghost use Rattle.tx_plain.specs.RowWise.{evaluations_through, through};
ghost use Rattle.tx_plain.specs.Pipeline.{evaluate};
ghost use Rattle.tx_plain.specs.Calls.Holding.{outcome_in, row_held};

use crate::RowOutcome;
use crate::held::{Held, Passed, kept};
use crate::row_wise::on_row;
use std::alloc::Global;
use std::sync::ledger::Ledger;
use tx_base::{Meter, Steps};
use tx_pipe::{Node, Pipe, Schemas};
use tx_text::NoMemory;
use tx_values::Row;

/// Takes a row through some operators, of which the first has this number.
pub(crate) fn pass<'a, L: Ledger>(
    alloc: Global,
    nodes: &[Node],
    number: u32,
    s: &Schemas,
    held: Held<'a>,
    meter: &mut Meter,
    steps: &mut Steps<L>,
) -> Result<Passed<'a>, NoMemory>
    requires { number + length nodes.now < 2 ^ 32 }
    ensures answer { IfOk result (λ o. outcome_in o ≡ through evaluate s.now number (pipe_of nodes.now) (row_held held.entry)) }
    ensures steps { OnOk result (steps.new ≡ steps.old + evaluations_through evaluate s.now number (pipe_of nodes.now) (row_held held.entry)) }
    ensures most { steps.new ≤ steps.old + evaluations_through evaluate s.now number (pipe_of nodes.now) (row_held held.entry) }
    ensures counts { Tracks steps.old steps.new meter.old meter.new }
{
    let [node, behind @ ..] = nodes else {
        return Ok(Passed::Out(held));
    };
    match on_row(alloc, node, number, s, held, meter, steps)? {
        Passed::Out(next) => pass(alloc, behind, number + 1, s, next, meter, steps),
        Passed::Dropped => Ok(Passed::Dropped),
        Passed::Reported(at, class) => Ok(Passed::Reported(at, class)),
    }
}

/// Takes a row through the operators from `first` to `last`, which go row by row, each but the first with the one before as its
/// input: what comes out, or the operator that dropped or reported it. `s` has the columns of each operator.
pub fn row_through<L: Ledger>(
    alloc: Global,
    p: &Pipe,
    first: u32,
    last: u32,
    s: &Schemas,
    row: &Row,
    meter: &mut Meter,
    steps: &mut Steps<L>,
) -> Result<RowOutcome, NoMemory>
    requires lawful { Lawful (pipe_of p.now) }
    requires first { 1 ≤ first }
    requires order { first ≤ last }
    requires last { last ≤ length p.now }
    ensures answer { IfOk result (λ o. o ≡ through evaluate s.now first (pipe_of (slice_range p.now (first - 1) last)) row.now) }
    ensures steps { OnOk result (steps.new ≡ steps.old + evaluations_through evaluate s.now first (pipe_of (slice_range p.now (first - 1) last)) row.now) }
    ensures most { steps.new ≤ steps.old + evaluations_through evaluate s.now first (pipe_of (slice_range p.now (first - 1) last)) row.now }
    ensures counts { Follows steps.old steps.new meter.old meter.new }
{
    let nodes = &p.as_slice()[first as usize - 1..last as usize];
    let passed = pass(alloc, nodes, first, s, Held::Lent(row), meter, steps);
    let _interp = meter.interp;
    kept(alloc, passed?)
}

// A count of interpreted calls that proofs see and that takes no bytes.
ghost use Rattle.std.specs.Prelude.{◌≡◌, ◌+◌, ◌<◌};
ghost use Rattle.tx_base.specs.Count.{counted};

use crate::Meter;
use std::marker::Model;
use std::sync::ledger::{Blank, Book, Ledger, Share};

/// How many steps were taken, for any ledger `L`. It takes no bytes at run time, and outside this crate only `step`
/// raises it.
#[derive(Drop)]
pub struct Steps<L: Ledger> {
    book: Book<L>,
    share: Share<L>,
}

impl<L: Ledger> Model for Steps<L> {
    ghost use Rattle.std.specs.Prelude.{ℕ, ◌<◌};

    ghost Value = { ℕ };

    ghost view = { λ s. s.book.total };

    ghost invariant = { λ s. 0 < s.share.parts };
}

impl<L: Ledger> Steps<L> {
    /// A counter at 0.
    pub fn open(blank: Blank) -> Steps<L>
        requires name { blank.name ≡ L.name }
        requires parts { blank.parts ≡ L.parts }
        requires some { 0 < L.parts }
        ensures { result ≡ 0 }
    {
        let (book, share) = blank.open::<L>();
        Steps { book, share }
    }

    // Private: outside this crate a step raises both counts.
    fn tick(&mut self)
        ensures { self.new ≡ self.old + 1 }
    {
        self.book.add(&mut self.share, 1);
    }
}

/// One step, which both counts tell: the counter rises by one, and so does `interp`, which stands at its last value.
pub fn step<L: Ledger>(meter: &mut Meter, steps: &mut Steps<L>)
    ensures steps { steps.new ≡ steps.old + 1 }
    ensures interp { meter.new.interp ≡ counted meter.old.interp 1 }
    ensures typed { meter.new.typed ≡ meter.old.typed }
{
    steps.tick();
    meter.interp = meter.interp.saturating_add(1);
}

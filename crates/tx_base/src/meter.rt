// What was evaluated, as numbers.
ghost use Rattle.std.specs.Prelude.{◌≡◌};

/// How many functions were interpreted, and how many runs of typed code were made.
#[derive(Clone, Copy, Debug, PartialEq, Eq)]
pub struct Meter {
    pub interp: u64,
    pub typed: u64,
}

impl Meter {
    /// A meter with both counts at 0.
    pub fn new() -> Meter
        ensures interp { result.interp ≡ 0 }
        ensures typed { result.typed ≡ 0 }
    {
        Meter {
            interp: 0,
            typed: 0,
        }
    }
}

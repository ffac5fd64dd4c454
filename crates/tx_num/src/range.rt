// The items of a range (Python's built-in types, "Ranges").
ghost use Rattle.std.specs.Prelude.{◌≡◌};
ghost use Rattle.tx_num.specs.Range.{RangeEndLaw, RangeItemsLaw, range_length};

/// The greatest number of items that a range may have.
pub const MOST_ITEMS: u128 = 1_048_576;

/// How many items a range has.
#[derive(Clone, Copy, Debug, PartialEq, Eq)]
pub enum RangeLength {
    /// So many.
    Count(u32),
    /// The step is 0: Python's ValueError.
    NoStep,
    /// More than a range may have.
    Past,
}

/// How many items Python's `range(first, end, step)` has: `range(1, 8, 3)` has three.
pub fn range_length(first: i128, end: i128, step: i128) -> RangeLength
    ensures { result ≡ range_length first end step }
{
    if step == 0 {
        return RangeLength::NoStep;
    }
    let is_some = if step > 0 { first < end } else { end < first };
    if !is_some {
        return RangeLength::Count(0);
    }
    let count = first.abs_diff(end).div_ceil(step.unsigned_abs());
    if count <= MOST_ITEMS {
        RangeLength::Count(count as u32)
    } else {
        RangeLength::Past
    }
}

/// The items of a range are those numbers, so many steps from the first, that come before the end.
pub fn ranges_stop_before_the_end()
    ensures end { RangeEndLaw }
    ensures items { RangeItemsLaw }
{}

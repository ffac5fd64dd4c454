// What numbers mean to a sequence: an index, the bounds of a slice, and how often it is repeated.
ghost use Rattle.std.specs.Prelude.{◌≡◌, ◌≤◌, pos};
ghost use Rattle.tx_num.specs.Place.{clamped, place_of, start_of, stop_of, times_of};
ghost use Rattle.tx_num.specs.PlaceExamples.{PlaceExamples};

/// The place that an index means in a sequence of so many items, as in Python's `s[i]`: of three items -1 means the one at
/// 2, and 3 means none.
pub fn place_of(count: usize, index: i128) -> Option<usize>
    ensures { result ≡ place_of count index }
{
    let len = count as i128;
    if index >= 0 {
        if index < len {
            Some(index as usize)
        } else {
            None
        }
    } else if index + len >= 0 {
        Some((index + len) as usize)
    } else {
        None
    }
}

// The place that a bound means: negative from the end, and then no less than 0 and no more than there are items.
fn clamp_bound(count: usize, bound: i128) -> usize
    ensures place { pos result ≡ clamped (pos 1) count bound }
    ensures within { result ≤ count }
{
    let len = count as i128;
    if bound >= len {
        count
    } else if bound >= 0 {
        bound as usize
    } else if bound + len >= 0 {
        (bound + len) as usize
    } else {
        0
    }
}

/// Where a slice of so many items begins, as Python's `slice(i, j).indices(count)` says: of five items -2 means 3, and 9
/// means 5.
pub fn slice_start(count: usize, bound: Option<i128>) -> usize
    ensures place { pos result ≡ start_of (pos 1) count bound }
    ensures within { result ≤ count }
{
    match bound {
        None => 0,
        Some(bound) => clamp_bound(count, bound),
    }
}

/// Before which place it ends.
pub fn slice_stop(count: usize, bound: Option<i128>) -> usize
    ensures place { pos result ≡ stop_of (pos 1) count bound }
    ensures within { result ≤ count }
{
    match bound {
        None => count,
        Some(bound) => clamp_bound(count, bound),
    }
}

/// How often a sequence is repeated by a factor, as in Python's `s * n`: not at all by a negative one. None where the factor
/// has more than 64 bits.
pub fn times_of(factor: i128) -> Option<usize>
    ensures { result ≡ times_of factor }
{
    if factor < i64::MIN as i128 || factor > i64::MAX as i128 {
        None
    } else if factor < 0 {
        Some(0)
    } else {
        Some(factor as usize)
    }
}

/// The examples that stand beside the definitions of places, slices and factors are true.
pub fn places_are_as_in_python()
    ensures { PlaceExamples }
{}

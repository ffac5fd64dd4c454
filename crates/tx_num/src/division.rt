// Division that rounds down, as Python's `//` and `%` do (Language Reference, "Binary arithmetic operations").
ghost use Rattle.std.specs.Prelude.{◌≡◌};
ghost use Rattle.tx_num.specs.Number.{floor_division, floor_modulo};
ghost use Rattle.tx_num.specs.Laws.{FloorLaw};

/// What a division gives.
#[derive(Clone, Copy, Debug, PartialEq, Eq)]
pub enum Division {
    /// The quotient or the remainder.
    Value(i128),
    /// The divisor is 0.
    Zero,
    /// The quotient has more than 128 bits.
    Past,
}

/// `a // b`, rounded down: `-7 // 2` is -4. Only the least number by -1 is past 128 bits.
pub fn floor_div(a: i128, b: i128) -> Division
    ensures { result ≡ floor_division a b }
{
    if b == 0 {
        return Division::Zero;
    }
    // Rust rounds toward 0. Where the signs differ, that gives for the number one nearer to 0 than `a` one more than is
    // due for `a`.
    if a < 0 && b > 0 {
        return Division::Value((a + 1) / b - 1);
    }
    if a > 0 && b < 0 {
        return Division::Value((a - 1) / b - 1);
    }
    match a.checked_div(b) {
        Some(quotient) => Division::Value(quotient),
        None => Division::Past,
    }
}

/// `a % b`, which has the divisor's sign: `-7 % 2` is 1, `7 % -2` is -1. It is never past 128 bits, and of the least
/// number by -1 it is 0.
pub fn floor_mod(a: i128, b: i128) -> Division
    ensures { result ≡ floor_modulo a b }
{
    if b == 0 {
        return Division::Zero;
    }
    // Where the signs differ, the remainder counts back from the divisor: `(a + 1) % b` lies from `1 - b` to 0, and the
    // sum from 0 to `b - 1`.
    if a < 0 && b > 0 {
        return Division::Value(b - 1 + (a + 1) % b);
    }
    if a > 0 && b < 0 {
        return Division::Value(b + 1 + (a - 1) % b);
    }
    Division::Value(a.wrapping_rem(b))
}

/// For a divisor that is not 0, the quotient and the remainder make up the dividend, the remainder lies between 0 and
/// the divisor, and no other two numbers do so.
pub fn floor_division_is_the_only_one()
    ensures { FloorLaw }
{}

// Sums, differences, products and negations, where they have 128 bits. Python's integers have no end.
ghost use Rattle.std.specs.Prelude.{◌≡◌, ◌+ℤ◌, ◌-ℤ◌, ◌*ℤ◌, neg_ℤ};
ghost use Rattle.tx_num.specs.Number.{kept};

/// `a + b`, or none where Python's sum has more than 128 bits, as that of the greatest number and 1.
#[tactic(auto, using(crate::proofs::Numbers::kept_is))]
pub fn add(a: i128, b: i128) -> Option<i128>
    ensures { result ≡ kept (a +ℤ b) }
{
    a.checked_add(b)
}

/// `a - b`, or none where Python's difference has more than 128 bits, as that of the least number and 1.
#[tactic(auto, using(crate::proofs::Numbers::kept_is))]
pub fn sub(a: i128, b: i128) -> Option<i128>
    ensures { result ≡ kept (a -ℤ b) }
{
    a.checked_sub(b)
}

/// `a * b`, or none where Python's product has more than 128 bits, as that of the least number and -1.
#[tactic(auto, using(crate::proofs::Numbers::kept_is))]
pub fn mul(a: i128, b: i128) -> Option<i128>
    ensures { result ≡ kept (a *ℤ b) }
{
    a.checked_mul(b)
}

/// `-a`, or none at the least number, whose negation has one bit more.
#[tactic(auto, using(crate::proofs::Numbers::kept_is))]
pub fn neg(a: i128) -> Option<i128>
    ensures { result ≡ kept (neg_ℤ a) }
{
    a.checked_neg()
}

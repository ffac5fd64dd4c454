// What an operator sees of a value.
ghost use Rattle.std.specs.Prelude.{◌≡◌};
ghost use Rattle.tx_ops.specs.Calls.Numbers.{number_in, numbers_in};
ghost use Rattle.tx_values.specs.Operand.{operand};

use tx_values::Value;

/// The number that a value is: a truth value is 0 or 1.
pub(crate) fn number_in(a: &Value) -> Option<i128>
    ensures { result ≡ number_in (operand a.now) }
{
    match a {
        Value::Truth(b) => Some(i128::from(*b)),
        Value::Int(n) => Some(*n),
        _ => None,
    }
}

/// The numbers that two values are, where both are.
pub(crate) fn numbers_in(a: &Value, b: &Value) -> Option<(i128, i128)>
    ensures { result ≡ numbers_in (operand a.now) (operand b.now) }
{
    match (number_in(a), number_in(b)) {
        (Some(m), Some(n)) => Some((m, n)),
        _ => None,
    }
}

// The sum of items.
ghost use Rattle.std.specs.Prelude.{◌≡◌, Ok, Err, IfOk};
ghost use Rattle.tx_base.specs.declared.class.Class.{Class};
ghost use Rattle.tx_methods.specs.Builtins.{sum_of_items};

use crate::arguments::a_number;
use tx_base::Class;
use tx_num::add;
use tx_values::{OpError, Value};

/// The sum of numbers, added to 0 in order, as Python's `sum`: a sum on the way that has more than 128 bits is OverflowError,
/// an item that is no number TypeError.
#[tactic(auto, using(crate::proofs::SumLemmas::sum_rules))]
pub(crate) fn sum_of_items(items: &[Value]) -> Result<Value, OpError>
    ensures value { IfOk result (λ v. sum_of_items items.now ≡ Ok v) }
    ensures raise { (c : Class) → result ≡ Err (OpError.Raise c) → sum_of_items items.now ≡ Err c }
{
    let mut total: i128 = 0;
    for item in items {
        match add(total, a_number(item)?) {
            Some(sum) => total = sum,
            None => return Err(OpError::Raise(Class::OverflowError)),
        }
    }
    Ok(Value::Int(total))
}

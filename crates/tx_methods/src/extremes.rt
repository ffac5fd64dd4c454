// The least and the greatest of items.
ghost use Rattle.std.specs.Prelude.{◌≡◌, Ok, Err, IfOk};
ghost use Rattle.tx_base.specs.declared.class.Class.{Class};
ghost use Rattle.tx_methods.specs.Builtins.{greatest_of, least_of};

use tx_base::Class;
use tx_values::{OpError, Value, less};

/// The first item that no other one is less than, as Python's `min`. None at all is ValueError, and items without an order
/// are TypeError.
pub(crate) fn least(items: &[Value]) -> Result<&Value, OpError>
    ensures value { IfOk result (λ found. least_of items.now ≡ Ok found.now) }
    ensures raise { (c : Class) → result ≡ Err (OpError.Raise c) → least_of items.now ≡ Err c }
{
    let Some((first, others)) = items.split_first() else {
        return Err(OpError::Raise(Class::ValueError));
    };
    let mut kept = first;
    for item in others {
        match less(item, kept) {
            Ok(true) => kept = item,
            Ok(false) => {}
            Err(class) => return Err(OpError::Raise(class)),
        }
    }
    Ok(kept)
}

/// The first item that no other one is greater than, as Python's `max`.
pub(crate) fn greatest(items: &[Value]) -> Result<&Value, OpError>
    ensures value { IfOk result (λ found. greatest_of items.now ≡ Ok found.now) }
    ensures raise { (c : Class) → result ≡ Err (OpError.Raise c) → greatest_of items.now ≡ Err c }
{
    let Some((first, others)) = items.split_first() else {
        return Err(OpError::Raise(Class::ValueError));
    };
    let mut kept = first;
    for item in others {
        match less(kept, item) {
            Ok(true) => kept = item,
            Ok(false) => {}
            Err(class) => return Err(OpError::Raise(class)),
        }
    }
    Ok(kept)
}

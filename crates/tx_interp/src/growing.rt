// A list that grows item by item, whose weight is carried along.
ghost use Rattle.std.specs.Prelude.{◌≡◌, ◌≤◌, [], IfOk, OnOk, Ok, Err};
ghost use Rattle.tx_base.specs.declared.class.Class.{Class};
ghost use Rattle.tx_meaning.specs.Containers.{longer};
ghost use Rattle.tx_interp.specs.Weighed.{IsGrowing, weight_with};
ghost use Rattle.tx_values.specs.Limits.{most_weight};

use std::alloc::Global;
use tx_base::Class;
use tx_values::{Items, MOST_DEPTH, MOST_WEIGHT, OpError, Value, depth, weight};

/// The items of a list, and the weight of the list.
#[derive(Drop)]
pub(crate) struct Growing {
    pub(crate) items: Items,
    pub(crate) weight: u64,
}

/// No item.
#[tactic(auto, using(crate::proofs::Weighed::growing))]
pub(crate) fn nothing(alloc: Global) -> Growing
    ensures items { result.items ≡ [] }
    ensures growing { IsGrowing result.items result.weight }
{
    Growing {
        items: Items::new(alloc),
        weight: 0,
    }
}

/// The list with one more item, where it is within the limits.
#[tactic(auto, using(crate::proofs::Weighed::growing))]
pub(crate) fn longer(sofar: Growing, item: Value) -> Result<Growing, OpError>
    requires { IsGrowing sofar.items sofar.weight }
    ensures value { IfOk result (λ all. longer sofar.items item ≡ Ok all.items) }
    ensures growing { IfOk result (λ all. IsGrowing all.items all.weight) }
    ensures raise { (c : Class) → result ≡ Err (OpError.Raise c) → longer sofar.items item ≡ Err c }
{
    let Growing { items, weight } = sofar;
    match weight_with(weight, &item) {
        None => Err(OpError::Raise(Class::ProfileError)),
        Some(weight) => {
            let mut items = items;
            items.push(item)?;
            Ok(Growing { items, weight })
        }
    }
}

// The weight of a list with one more item, where it is within the limits. Without the item it has this weight.
fn weight_with(sum: u64, item: &Value) -> Option<u64>
    requires { sum ≤ most_weight }
    ensures { result ≡ weight_with sum item.now }
{
    let sum = sum.saturating_add(1).saturating_add(weight(item));
    if sum <= MOST_WEIGHT && depth(item) < MOST_DEPTH {
        Some(sum)
    } else {
        None
    }
}

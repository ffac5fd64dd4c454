// Keys looked up in dictionaries.
ghost use Rattle.std.specs.Prelude.{◌≡◌};
ghost use Rattle.std.specs.Option.{option_copied};
ghost use Rattle.tx_values.specs.Lookup.{value_under};

use crate::{Value, equal};

/// The value of a key among the pairs of a dictionary, as Python's `d[key]`: in `{1: "a"}` that of `True` is `"a"`. It takes
/// no memory, and goes through the pairs from the front.
pub fn value_under<'a>(pairs: &'a [(Value, Value)], key: &Value) -> Option<&'a Value>
    ensures { option_copied result ≡ value_under key.now pairs.now }
{
    for pair in pairs {
        if equal(key, &pair.0) {
            return Some(&pair.1);
        }
    }
    None
}

// The methods of tuples and lists. Items are compared where they lie, so they take no memory.
ghost use Rattle.std.specs.Prelude.{◌≡◌, Ok, Err, IfOk, count_by, position};
ghost use Rattle.tx_base.specs.declared.class.Class.{Class};
ghost use Rattle.tx_values.specs.Equality.{equal};
ghost use Rattle.tx_methods.specs.SequenceMethods.{sequence_method};

use crate::arguments::only;
use crate::builtins::natural;
use tx_base::Class;
use tx_tree::Method;
use tx_values::{OpError, Value, equal};

// How many items equal a value.
fn count_of(items: &[Value], a: &Value) -> usize
    ensures { result ≡ count_by (λ item. equal item a.now) items.now }
{
    items.iter().filter(|item| equal(item, a)).count()
}

// The first place of an item that equals a value.
fn place_of(items: &[Value], a: &Value) -> Option<usize>
    ensures { result ≡ position (λ item. equal item a.now) items.now }
{
    items.iter().position(|item| equal(item, a))
}

/// What a method of a tuple or a list gives.
pub(crate) fn sequence_method(m: Method, items: &[Value], args: &[Value]) -> Result<Value, OpError>
    ensures value { IfOk result (λ v. sequence_method m items.now args.now ≡ Ok v) }
    ensures raise { (c : Class) → result ≡ Err (OpError.Raise c) → sequence_method m items.now args.now ≡ Err c }
{
    match m {
        Method::Count => Ok(natural(count_of(items, only(args)?))),
        Method::Index => match place_of(items, only(args)?) {
            Some(place) => Ok(natural(place)),
            None => Err(OpError::Raise(Class::ValueError)),
        },
        _ => Err(OpError::Raise(Class::AttributeError)),
    }
}

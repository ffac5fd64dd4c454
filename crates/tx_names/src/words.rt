// What a word names.
ghost use Rattle.std.specs.Prelude.{◌≡◌};
ghost use Rattle.tx_tree.specs.Takes.{is_view};
ghost use Rattle.tx_names.specs.Named as named;

use tx_text::PyText;
use tx_tree::{Builtin, Method, Walk, builtin_named, method_named, walk_named};

pub(crate) fn builtin_at(name: &PyText) -> Option<Builtin>
    ensures { result ≡ named.builtin_at name.now }
{
    builtin_named(name.as_str())
}

pub(crate) fn method_at(name: &PyText) -> Option<Method>
    ensures { result ≡ named.method_at name.now }
{
    method_named(name.as_str())
}

// Whether a walk is a view of a dictionary.
fn is_view(walk: Walk) -> bool
    ensures { result ≡ is_view walk }
{
    matches!(walk, Walk::Items | Walk::Keys | Walk::Values)
}

/// The walk of this name that is a function.
pub(crate) fn walk_function_at(name: &PyText) -> Option<Walk>
    ensures { result ≡ named.walk_function_at name.now }
{
    let Some(walk) = walk_named(name.as_str()) else {
        return None;
    };
    if is_view(walk) { None } else { Some(walk) }
}

/// The view of a dictionary of this name.
pub(crate) fn view_at(name: &PyText) -> Option<Walk>
    ensures { result ≡ named.view_at name.now }
{
    let Some(walk) = walk_named(name.as_str()) else {
        return None;
    };
    if is_view(walk) { Some(walk) } else { None }
}

// How many arguments a method, a built-in function and a walk take.
ghost use Rattle.std.specs.Prelude.{◌≡◌};
ghost use Rattle.tx_tree.specs.Takes.{allows, method_takes, builtin_takes, walk_takes};

use crate::function::{Builtin, Method, Walk};

impl Method {
    /// Whether the method takes so many arguments.
    pub fn takes(self, count: usize) -> bool
        ensures { result ≡ allows (method_takes self) count }
    {
        match self {
            Method::Lower | Method::Upper | Method::IsDigit => count == 0,
            Method::Strip | Method::Lstrip | Method::Rstrip | Method::Split => count <= 1,
            Method::Replace => count == 2,
            Method::Get => count == 1 || count == 2,
            _ => count == 1,
        }
    }
}

impl Builtin {
    /// Whether the function takes so many arguments.
    pub fn takes(self, count: usize) -> bool
        ensures { result ≡ allows (builtin_takes self) count }
    {
        match self {
            Builtin::Min | Builtin::Max => count >= 1,
            _ => count == 1,
        }
    }
}

impl Walk {
    /// Whether the walk takes so many arguments; a view of a dictionary takes none beside the dictionary.
    pub fn takes(self, count: usize) -> bool
        ensures { result ≡ allows (walk_takes self) count }
    {
        match self {
            Walk::Range => count >= 1 && count <= 3,
            Walk::Enumerate => count == 1,
            Walk::Zip => count == 2,
            Walk::Items | Walk::Keys | Walk::Values => count == 0,
        }
    }
}

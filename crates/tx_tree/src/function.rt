// Methods, built-in functions and walks by their words.
ghost use Rattle.std.specs.Prelude.{◌≡◌, ◌↔◌, Some};
ghost use Rattle.std.specs.Str.{chars};
ghost use Rattle.tx_tree.specs.Words.{method_word, builtin_word, walk_word};

/// A method of a text, a tuple, a list or a dictionary that gives a value.
#[derive(Clone, Copy, Debug, PartialEq, Eq)]
pub enum Method {
    Lower,
    Upper,
    Strip,
    Lstrip,
    Rstrip,
    Split,
    Replace,
    Find,
    Rfind,
    Index,
    Count,
    StartsWith,
    EndsWith,
    Join,
    Zfill,
    IsDigit,
    Get,
}

impl Method {
    /// The method's name.
    pub fn word(self) -> &'static str
        ensures { result.now ≡ method_word self }
    {
        match self {
            Method::Lower => "lower",
            Method::Upper => "upper",
            Method::Strip => "strip",
            Method::Lstrip => "lstrip",
            Method::Rstrip => "rstrip",
            Method::Split => "split",
            Method::Replace => "replace",
            Method::Find => "find",
            Method::Rfind => "rfind",
            Method::Index => "index",
            Method::Count => "count",
            Method::StartsWith => "startswith",
            Method::EndsWith => "endswith",
            Method::Join => "join",
            Method::Zfill => "zfill",
            Method::IsDigit => "isdigit",
            Method::Get => "get",
        }
    }
}

/// The method of this name: `Lower` of `"lower"`, none of another word.
pub fn method_named(word: &str) -> Option<Method>
    ensures { (x : Method) → (result ≡ Some x) ↔ (chars word.now ≡ method_word x) }
{
    method_of_bytes(word)
}

fn method_of_bytes(word: &str) -> Option<Method>
    ensures { (x : Method) → (result ≡ Some x) ↔ (word.now ≡ method_word x) }
{
    Some(match word {
        "lower" => Method::Lower,
        "upper" => Method::Upper,
        "strip" => Method::Strip,
        "lstrip" => Method::Lstrip,
        "rstrip" => Method::Rstrip,
        "split" => Method::Split,
        "replace" => Method::Replace,
        "find" => Method::Find,
        "rfind" => Method::Rfind,
        "index" => Method::Index,
        "count" => Method::Count,
        "startswith" => Method::StartsWith,
        "endswith" => Method::EndsWith,
        "join" => Method::Join,
        "zfill" => Method::Zfill,
        "isdigit" => Method::IsDigit,
        "get" => Method::Get,
        _ => return None,
    })
}

/// A built-in function that gives a value.
#[derive(Clone, Copy, Debug, PartialEq, Eq)]
pub enum Builtin {
    Len,
    Int,
    Str,
    Bool,
    Abs,
    Min,
    Max,
    Sum,
    Any,
    All,
    Ord,
    List,
    Tuple,
}

impl Builtin {
    /// The function's name.
    pub fn word(self) -> &'static str
        ensures { result.now ≡ builtin_word self }
    {
        match self {
            Builtin::Len => "len",
            Builtin::Int => "int",
            Builtin::Str => "str",
            Builtin::Bool => "bool",
            Builtin::Abs => "abs",
            Builtin::Min => "min",
            Builtin::Max => "max",
            Builtin::Sum => "sum",
            Builtin::Any => "any",
            Builtin::All => "all",
            Builtin::Ord => "ord",
            Builtin::List => "list",
            Builtin::Tuple => "tuple",
        }
    }
}

/// The built-in function of this name, none of another word.
pub fn builtin_named(word: &str) -> Option<Builtin>
    ensures { (x : Builtin) → (result ≡ Some x) ↔ (chars word.now ≡ builtin_word x) }
{
    builtin_of_bytes(word)
}

fn builtin_of_bytes(word: &str) -> Option<Builtin>
    ensures { (x : Builtin) → (result ≡ Some x) ↔ (word.now ≡ builtin_word x) }
{
    Some(match word {
        "len" => Builtin::Len,
        "int" => Builtin::Int,
        "str" => Builtin::Str,
        "bool" => Builtin::Bool,
        "abs" => Builtin::Abs,
        "min" => Builtin::Min,
        "max" => Builtin::Max,
        "sum" => Builtin::Sum,
        "any" => Builtin::Any,
        "all" => Builtin::All,
        "ord" => Builtin::Ord,
        "list" => Builtin::List,
        "tuple" => Builtin::Tuple,
        _ => return None,
    })
}

/// What stands only as the iterable of a `for` or of a comprehension: three functions, and three methods of a
/// dictionary.
#[derive(Clone, Copy, Debug, PartialEq, Eq)]
pub enum Walk {
    Range,
    Enumerate,
    Zip,
    Items,
    Keys,
    Values,
}

impl Walk {
    /// The name of the function or the method.
    pub fn word(self) -> &'static str
        ensures { result.now ≡ walk_word self }
    {
        match self {
            Walk::Range => "range",
            Walk::Enumerate => "enumerate",
            Walk::Zip => "zip",
            Walk::Items => "items",
            Walk::Keys => "keys",
            Walk::Values => "values",
        }
    }
}

/// The walk of this name, none of another word.
pub fn walk_named(word: &str) -> Option<Walk>
    ensures { (x : Walk) → (result ≡ Some x) ↔ (chars word.now ≡ walk_word x) }
{
    walk_of_bytes(word)
}

fn walk_of_bytes(word: &str) -> Option<Walk>
    ensures { (x : Walk) → (result ≡ Some x) ↔ (word.now ≡ walk_word x) }
{
    Some(match word {
        "range" => Walk::Range,
        "enumerate" => Walk::Enumerate,
        "zip" => Walk::Zip,
        "items" => Walk::Items,
        "keys" => Walk::Keys,
        "values" => Walk::Values,
        _ => return None,
    })
}

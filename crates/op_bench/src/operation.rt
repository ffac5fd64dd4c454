// The operations that are timed, by their words.
ghost use Rattle.std.specs.Prelude.{◌≡◌, ◌≢◌, None, IfSome};
ghost use Rattle.op_bench.specs.Word.{word_of};
ghost use Rattle.op_bench.specs.declared.operation.Operation.{Operation};

/// An operation on two values, or a function or method of the first. `Numbers`, `Texts`, `Lists`, `Numerals`, `Singles` and the pairs do
/// nothing: their time is that of reading and summing.
#[derive(Clone, Copy, Debug, PartialEq, Eq)]
pub(crate) enum Operation {
    Numbers,
    NumberPairs,
    Add,
    Multiply,
    FloorDiv,
    Less,
    Equal,
    Texts,
    TextPairs,
    Join,
    In,
    CharAt,
    Lists,
    ItemAt,
    Split,
    Replace,
    Find,
    Numerals,
    IntOf,
    Singles,
    StrOf,
}

/// What the lines of the file are read as.
#[derive(Clone, Copy, Debug, PartialEq, Eq)]
pub(crate) enum Reading {
    Numbers,
    Texts,
    /// Lists of eight integers, from the line's number upwards.
    Lists,
    /// Lists of one text each, the arguments of a function.
    Numerals,
    /// Lists of one integer each.
    Singles,
}

impl Operation {
    pub(crate) fn reading(self) -> Reading {
        match self {
            Operation::Texts
            | Operation::TextPairs
            | Operation::Join
            | Operation::In
            | Operation::CharAt
            | Operation::Split
            | Operation::Replace
            | Operation::Find => Reading::Texts,
            Operation::Lists | Operation::ItemAt => Reading::Lists,
            Operation::Numerals | Operation::IntOf => Reading::Numerals,
            Operation::Singles | Operation::StrOf => Reading::Singles,
            _ => Reading::Numbers,
        }
    }
}

/// The operation of a word.
pub(crate) fn named(word: &str) -> Option<Operation>
    ensures some { IfSome result (λ o. word.now ≡ word_of o) }
    ensures none { result ≡ None → (o : Operation) → word.now ≢ word_of o }
{
    match word {
        "numbers" => Some(Operation::Numbers),
        "number_pairs" => Some(Operation::NumberPairs),
        "add" => Some(Operation::Add),
        "multiply" => Some(Operation::Multiply),
        "floor_div" => Some(Operation::FloorDiv),
        "less" => Some(Operation::Less),
        "equal" => Some(Operation::Equal),
        "texts" => Some(Operation::Texts),
        "text_pairs" => Some(Operation::TextPairs),
        "join" => Some(Operation::Join),
        "in" => Some(Operation::In),
        "char_at" => Some(Operation::CharAt),
        "lists" => Some(Operation::Lists),
        "item_at" => Some(Operation::ItemAt),
        "split" => Some(Operation::Split),
        "replace" => Some(Operation::Replace),
        "find" => Some(Operation::Find),
        "numerals" => Some(Operation::Numerals),
        "int" => Some(Operation::IntOf),
        "singles" => Some(Operation::Singles),
        "str" => Some(Operation::StrOf),
        _ => None,
    }
}

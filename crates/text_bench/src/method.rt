// The methods that are timed, by their words.
ghost use Rattle.std.specs.Prelude.{◌≡◌, ◌≢◌, None, IfSome};
ghost use Rattle.text_bench.specs.Word.{word_of};
ghost use Rattle.text_bench.specs.declared.method.Method.{Method};

/// A method of `PyText`. `Nothing` calls none: its time is that of reading the cells.
#[derive(Clone, Copy, Debug, PartialEq, Eq)]
pub(crate) enum Method {
    Nothing,
    Len,
    CharAt,
    Slice,
    Equal,
    Less,
    Find,
    Rfind,
    Count,
    Replace,
    SplitOn,
    SplitBlank,
    Strip,
    StripOf,
    Lower,
    Upper,
    IsDigit,
    Concat,
    Repeat,
    Join,
    Zfill,
}

/// The method of a word.
pub(crate) fn named(word: &str) -> Option<Method>
    ensures some { IfSome result (λ m. word.now ≡ word_of m) }
    ensures none { result ≡ None → (m : Method) → word.now ≢ word_of m }
{
    match word {
        "none" => Some(Method::Nothing),
        "len" => Some(Method::Len),
        "char_at" => Some(Method::CharAt),
        "slice" => Some(Method::Slice),
        "equal" => Some(Method::Equal),
        "less" => Some(Method::Less),
        "find" => Some(Method::Find),
        "rfind" => Some(Method::Rfind),
        "count" => Some(Method::Count),
        "replace" => Some(Method::Replace),
        "split_on" => Some(Method::SplitOn),
        "split_blank" => Some(Method::SplitBlank),
        "strip" => Some(Method::Strip),
        "strip_of" => Some(Method::StripOf),
        "lower" => Some(Method::Lower),
        "upper" => Some(Method::Upper),
        "is_digit" => Some(Method::IsDigit),
        "concat" => Some(Method::Concat),
        "repeat" => Some(Method::Repeat),
        "join" => Some(Method::Join),
        "zfill" => Some(Method::Zfill),
        _ => None,
    }
}

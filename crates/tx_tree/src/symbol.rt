// Keywords and marks: the tokens of which each has one word.
ghost use Rattle.std.specs.Prelude.{◌≡◌, ◌↔◌, Some};
ghost use Rattle.std.specs.Str.{chars};
ghost use Rattle.tx_tree.specs.Words.{keyword_word, mark_word};

/// A keyword of Python (Language Reference, "Keywords"). The grammar uses some of them; no name may be one.
#[derive(Clone, Copy, Debug, PartialEq, Eq)]
pub enum Keyword {
    False,
    None,
    True,
    And,
    As,
    Assert,
    Async,
    Await,
    Break,
    Class,
    Continue,
    Def,
    Del,
    Elif,
    Else,
    Except,
    Finally,
    For,
    From,
    Global,
    If,
    Import,
    In,
    Is,
    Lambda,
    Nonlocal,
    Not,
    Or,
    Pass,
    Raise,
    Return,
    Try,
    While,
    With,
    Yield,
}

impl Keyword {
    /// The keyword as it is written.
    pub fn word(self) -> &'static str
        ensures { result.now ≡ keyword_word self }
    {
        match self {
            Keyword::False => "False",
            Keyword::None => "None",
            Keyword::True => "True",
            Keyword::And => "and",
            Keyword::As => "as",
            Keyword::Assert => "assert",
            Keyword::Async => "async",
            Keyword::Await => "await",
            Keyword::Break => "break",
            Keyword::Class => "class",
            Keyword::Continue => "continue",
            Keyword::Def => "def",
            Keyword::Del => "del",
            Keyword::Elif => "elif",
            Keyword::Else => "else",
            Keyword::Except => "except",
            Keyword::Finally => "finally",
            Keyword::For => "for",
            Keyword::From => "from",
            Keyword::Global => "global",
            Keyword::If => "if",
            Keyword::Import => "import",
            Keyword::In => "in",
            Keyword::Is => "is",
            Keyword::Lambda => "lambda",
            Keyword::Nonlocal => "nonlocal",
            Keyword::Not => "not",
            Keyword::Or => "or",
            Keyword::Pass => "pass",
            Keyword::Raise => "raise",
            Keyword::Return => "return",
            Keyword::Try => "try",
            Keyword::While => "while",
            Keyword::With => "with",
            Keyword::Yield => "yield",
        }
    }
}

/// The keyword of a word: `If` of `"if"`, none of a word that may be a name.
pub fn keyword_named(word: &str) -> Option<Keyword>
    ensures { (x : Keyword) → (result ≡ Some x) ↔ (chars word.now ≡ keyword_word x) }
{
    keyword_of_bytes(word)
}

fn keyword_of_bytes(word: &str) -> Option<Keyword>
    ensures { (x : Keyword) → (result ≡ Some x) ↔ (word.now ≡ keyword_word x) }
{
    Some(match word {
        "False" => Keyword::False,
        "None" => Keyword::None,
        "True" => Keyword::True,
        "and" => Keyword::And,
        "as" => Keyword::As,
        "assert" => Keyword::Assert,
        "async" => Keyword::Async,
        "await" => Keyword::Await,
        "break" => Keyword::Break,
        "class" => Keyword::Class,
        "continue" => Keyword::Continue,
        "def" => Keyword::Def,
        "del" => Keyword::Del,
        "elif" => Keyword::Elif,
        "else" => Keyword::Else,
        "except" => Keyword::Except,
        "finally" => Keyword::Finally,
        "for" => Keyword::For,
        "from" => Keyword::From,
        "global" => Keyword::Global,
        "if" => Keyword::If,
        "import" => Keyword::Import,
        "in" => Keyword::In,
        "is" => Keyword::Is,
        "lambda" => Keyword::Lambda,
        "nonlocal" => Keyword::Nonlocal,
        "not" => Keyword::Not,
        "or" => Keyword::Or,
        "pass" => Keyword::Pass,
        "raise" => Keyword::Raise,
        "return" => Keyword::Return,
        "try" => Keyword::Try,
        "while" => Keyword::While,
        "with" => Keyword::With,
        "yield" => Keyword::Yield,
        _ => return None,
    })
}

/// A mark: an operator, a bracket or a separator.
#[derive(Clone, Copy, Debug, PartialEq, Eq)]
pub enum Mark {
    Open,
    Close,
    OpenSquare,
    CloseSquare,
    OpenBrace,
    CloseBrace,
    Comma,
    Colon,
    Dot,
    Assign,
    Plus,
    Minus,
    Star,
    DoubleSlash,
    Percent,
    PlusAssign,
    MinusAssign,
    StarAssign,
    DoubleSlashAssign,
    PercentAssign,
    Equal,
    NotEqual,
    Less,
    LessEqual,
    Greater,
    GreaterEqual,
}

impl Mark {
    /// The mark as it is written.
    pub fn word(self) -> &'static str
        ensures { result.now ≡ mark_word self }
    {
        match self {
            Mark::Open => "(",
            Mark::Close => ")",
            Mark::OpenSquare => "[",
            Mark::CloseSquare => "]",
            Mark::OpenBrace => "{",
            Mark::CloseBrace => "}",
            Mark::Comma => ",",
            Mark::Colon => ":",
            Mark::Dot => ".",
            Mark::Assign => "=",
            Mark::Plus => "+",
            Mark::Minus => "-",
            Mark::Star => "*",
            Mark::DoubleSlash => "//",
            Mark::Percent => "%",
            Mark::PlusAssign => "+=",
            Mark::MinusAssign => "-=",
            Mark::StarAssign => "*=",
            Mark::DoubleSlashAssign => "//=",
            Mark::PercentAssign => "%=",
            Mark::Equal => "==",
            Mark::NotEqual => "!=",
            Mark::Less => "<",
            Mark::LessEqual => "<=",
            Mark::Greater => ">",
            Mark::GreaterEqual => ">=",
        }
    }
}

/// The mark that is written so, none of other characters.
pub fn mark_named(word: &str) -> Option<Mark>
    ensures { (x : Mark) → (result ≡ Some x) ↔ (chars word.now ≡ mark_word x) }
{
    mark_of_bytes(word)
}

fn mark_of_bytes(word: &str) -> Option<Mark>
    ensures { (x : Mark) → (result ≡ Some x) ↔ (word.now ≡ mark_word x) }
{
    Some(match word {
        "(" => Mark::Open,
        ")" => Mark::Close,
        "[" => Mark::OpenSquare,
        "]" => Mark::CloseSquare,
        "{" => Mark::OpenBrace,
        "}" => Mark::CloseBrace,
        "," => Mark::Comma,
        ":" => Mark::Colon,
        "." => Mark::Dot,
        "=" => Mark::Assign,
        "+" => Mark::Plus,
        "-" => Mark::Minus,
        "*" => Mark::Star,
        "//" => Mark::DoubleSlash,
        "%" => Mark::Percent,
        "+=" => Mark::PlusAssign,
        "-=" => Mark::MinusAssign,
        "*=" => Mark::StarAssign,
        "//=" => Mark::DoubleSlashAssign,
        "%=" => Mark::PercentAssign,
        "==" => Mark::Equal,
        "!=" => Mark::NotEqual,
        "<" => Mark::Less,
        "<=" => Mark::LessEqual,
        ">" => Mark::Greater,
        ">=" => Mark::GreaterEqual,
        _ => return None,
    })
}

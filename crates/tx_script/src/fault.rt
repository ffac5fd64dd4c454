// Why a script is refused.
use thiserror::Error;
use tx_text::NoMemory;

/// The checks of a script, in the order in which they are made.
#[derive(Clone, Copy, Debug, PartialEq, Eq)]
pub enum ScriptKind {
    /// More than 262,144 bytes.
    TooLong,
    /// Not UTF-8.
    NotText,
    /// No token of the language.
    Token,
    /// A column of a line that is none of the open ones.
    Indent,
    /// An integer literal of more than 128 bits.
    Width,
    /// A keyword of Python that the language does not have.
    Outside,
    /// No block of the language.
    NotABlock,
    /// Deeper than 64.
    TooDeep,
    /// A word of a chain or its arguments that are no form of an operator or a handler.
    Operator,
    /// More than 64 operators and handlers.
    TooManyOperators,
    /// More than 64 defs.
    TooManyDefs,
    /// A name that is not known where it stands, or may not be defined.
    Name,
    /// A number of arguments or of parameters that there is not.
    Arity,
    /// A def that calls itself.
    Recursive,
    /// A row used as a value.
    RowUse,
    /// A handler where none may stand.
    HandlerPlace,
    /// A pipeline that is not used exactly once.
    PipeUse,
    /// A script that does not end as it must, or an end elsewhere.
    NoEnd,
    /// An output or a report that has the name of an input or of the script.
    OutputIsInput,
}

/// A refusal: the first check that fails, and the line of its first place. Lines count from 1; it is 0 where none is named.
#[derive(Clone, Copy, Debug, PartialEq, Eq)]
pub struct ScriptFault {
    pub kind: ScriptKind,
    pub line: u32,
}

/// Why a script gives no pipe.
#[derive(Clone, Copy, Debug, PartialEq, Eq, Error)]
pub enum ScriptError {
    #[error("a script that is refused")]
    Fault(ScriptFault),
    #[error("out of memory")]
    NoMemory,
}

impl From<NoMemory> for ScriptError {
    ghost use Rattle.std.specs.Prelude.{◌≡◌};
    ghost use Rattle.tx_script.specs.declared.fault.ScriptError.TheVariants as error;

    ghost from_gives = { λ _ e. e ≡ error.NoMemory };

    fn from(_: NoMemory) -> Self {
        ScriptError::NoMemory
    }
}

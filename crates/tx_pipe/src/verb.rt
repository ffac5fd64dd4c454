// The words of operators and handlers, and of the classes that handlers name.
ghost use Rattle.std.specs.Prelude.{◌≡◌};
ghost use Rattle.tx_pipe.specs.Verbs.{verb_word, verb_at, class_at};

use tx_base::{Class, class_named};
use tx_text::PyText;

/// The operators and the handlers, as their words name them.
#[derive(Clone, Copy, Debug, PartialEq, Eq)]
pub enum Verb {
    Csv,
    Map,
    Filter,
    WithColumn,
    MapColumn,
    SelectColumns,
    RenameColumn,
    Join,
    LeftJoin,
    Unique,
    Aggregate,
    ToCsv,
    Resolve,
    Ignore,
}

impl Verb {
    /// The word, as a script and a report write it: `withColumn`.
    pub fn word(self) -> &'static str
        ensures { result.now ≡ verb_word self }
    {
        match self {
            Verb::Csv => "csv",
            Verb::Map => "map",
            Verb::Filter => "filter",
            Verb::WithColumn => "withColumn",
            Verb::MapColumn => "mapColumn",
            Verb::SelectColumns => "selectColumns",
            Verb::RenameColumn => "renameColumn",
            Verb::Join => "join",
            Verb::LeftJoin => "leftJoin",
            Verb::Unique => "unique",
            Verb::Aggregate => "aggregate",
            Verb::ToCsv => "tocsv",
            Verb::Resolve => "resolve",
            Verb::Ignore => "ignore",
        }
    }
}

/// The operator or handler that a word names.
pub fn verb_named(word: &PyText) -> Option<Verb>
    ensures { result ≡ verb_at word.now }
{
    verb_of_bytes(word.as_str())
}

fn verb_of_bytes(word: &str) -> Option<Verb>
    ensures { result ≡ verb_at word.now }
{
    Some(match word {
        "csv" => Verb::Csv,
        "map" => Verb::Map,
        "filter" => Verb::Filter,
        "withColumn" => Verb::WithColumn,
        "mapColumn" => Verb::MapColumn,
        "selectColumns" => Verb::SelectColumns,
        "renameColumn" => Verb::RenameColumn,
        "join" => Verb::Join,
        "leftJoin" => Verb::LeftJoin,
        "unique" => Verb::Unique,
        "aggregate" => Verb::Aggregate,
        "tocsv" => Verb::ToCsv,
        "resolve" => Verb::Resolve,
        "ignore" => Verb::Ignore,
        _ => return None,
    })
}

/// The class that a handler names.
pub fn class_at(word: &PyText) -> Option<Class>
    ensures { result ≡ class_at word.now }
{
    class_named(word.as_str())
}

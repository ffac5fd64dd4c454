// How a file is read.
ghost use Rattle.std.specs.Prelude.{◌≡◌};
ghost use Rattle.tx_records.specs.Records.{plain};

use std::alloc::Global;
use tx_text::Texts;

/// How the records of a file are read: the byte between fields, and the words that stand for None beside the empty field.
#[derive(Drop)]
pub struct Dialect {
    pub(crate) delimiter: u8,
    pub(crate) null: Texts,
}

impl Dialect {
    /// Commas, and no words.
    pub(crate) fn plain(alloc: Global) -> Dialect
        ensures { result ≡ plain }
    {
        Dialect {
            delimiter: b',',
            null: Texts::new(alloc),
        }
    }
}

// The records of a file, one after the other.
ghost use Rattle.std.specs.Prelude.{◌≡◌, [], ◌∷◌, true, false, IfOk};
ghost use Rattle.csv.specs.Reading.{records, strip_bom};
ghost use Rattle.csv.specs.Records.{fields_of};
ghost use Rattle.tx_records.specs.Records.{config_of};
ghost use Rattle.tx_records.specs.Calls.Reading.{Stands, left_of};

use csv::{ByteRecord, Reader, ReaderBuilder};
use std::alloc::Global;
use tx_text::NoMemory;

/// A reader of the bytes of a file, of which csv takes one UTF-8 mark off.
pub(crate) fn reader_of(alloc: Global, delimiter: u8, bytes: &[u8]) -> Reader<&[u8]>
    ensures stands { Stands result }
    ensures left { left_of result ≡ records (config_of delimiter) (strip_bom bytes.now) }
{
    ReaderBuilder::new()
        .has_headers(false)
        .flexible(true)
        .delimiter(delimiter)
        .from_reader(alloc, bytes)
}

/// Reads the next record; false where there is none. Each error of csv is want of memory: the bytes are in memory, and
/// records may have any number of fields.
pub(crate) fn read_next(reader: &mut Reader<&[u8]>, row: &mut ByteRecord) -> Result<bool, NoMemory>
    requires { Stands reader.old }
    ensures stands { IfOk result (λ found. found ≡ true → Stands reader.new) }
    ensures next { IfOk result (λ found. found ≡ true → left_of reader.old ≡ fields_of row.new ∷ left_of reader.new) }
    ensures end { IfOk result (λ found. found ≡ false → left_of reader.old ≡ []) }
{
    let Ok(found) = reader.read_byte_record(row) else {
        return Err(NoMemory);
    };
    Ok(found)
}

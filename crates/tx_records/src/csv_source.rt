// A file as a source: the names of its columns, its good records and its faulty ones.
ghost use Rattle.std.specs.Prelude.{◌≡◌, ◌∷◌, ◌++◌, [], length, None, IfOk, OnOk};
ghost use Rattle.csv.specs.Records.{fields_of};
ghost use Rattle.tx_records.specs.Records.{entry_of, faults_in, good_in, plain, raised_by, records_of};
ghost use Rattle.tx_records.specs.Source.{kept_source, source_by, source_headed, source_of};
ghost use Rattle.tx_records.specs.Calls.Packed.{HoldsRecords, rows_from};
ghost use Rattle.tx_records.specs.Calls.Reading.{Stands, left_of};

use crate::dialect::Dialect;
use crate::faulty::raised_by;
use crate::fields::{Fields, push_fields};
use crate::raw::RawRows;
use crate::reading::{read_next, reader_of};
use csv::{ByteRecord, Reader};
use std::alloc::Global;
use tx_base::Class;
use tx_report::{Entries, Entry};
use tx_text::{Bytes, NoMemory};
use tx_values::{Mark, Names, Naming, Origin};

/// What a file gives: the names of its columns, its good records, and an entry for each faulty one.
#[derive(Drop)]
pub struct CsvSource {
    pub names: Names,
    pub rows: RawRows,
    pub faults: Entries,
}

/// How many bytes, fields and records there may be, at most: room is taken for them once.
#[derive(Clone, Copy)]
struct Room {
    bytes: usize,
    fields: usize,
    records: usize,
}

// How often a byte stands in a file.
fn count_of(bytes: &[u8], wanted: u8) -> usize {
    bytes.iter().filter(|b| **b == wanted).count()
}

// A field ends at a delimiter, a record at a carriage return, a line feed or the end of the file.
fn room_of(bytes: &[u8], delimiter: u8) -> Room {
    let ends = count_of(bytes, b'\n').saturating_add(count_of(bytes, b'\r'));
    let records = ends.saturating_add(1);
    Room {
        bytes: bytes.len(),
        fields: records.saturating_add(count_of(bytes, delimiter)),
        records,
    }
}

// Adds a name.
fn push_name(alloc: Global, names: &mut Names, name: &[u8]) -> Result<(), NoMemory>
    ensures { OnOk result (names.new ≡ names.old ++ name.now ∷ []) }
{
    let mut copy = Bytes::new(alloc);
    copy.push_all(name)?;
    names.push(copy)
}

// The same names, made anew.
fn copy_names(alloc: Global, names: &[Bytes]) -> Result<Names, NoMemory>
    ensures { IfOk result (λ n. n ≡ names.now) }
{
    let mut copies = Names::new(alloc);
    'copied: for name in names {
        push_name(alloc, &mut copies, name.as_slice())?;
    }
    Ok(copies)
}

// The fields of a record as names.
fn header_of(alloc: Global, row: &ByteRecord) -> Result<Names, NoMemory>
    ensures { IfOk result (λ n. n ≡ fields_of row.now) }
{
    let mut names = Names::new(alloc);
    'fields: for i in 0..row.len() {
        if let Some(field) = row.get(i) {
            push_name(alloc, &mut names, field)?;
        }
    }
    Ok(names)
}

/// What is kept of the data records: the fields of the good ones with their numbers, and the entries of the faulty ones.
#[derive(Drop)]
struct Kept {
    fields: Fields,
    numbers: Vec<u32>,
    faults: Entries,
}

// Nothing, with this room.
fn nothing_kept(alloc: Global, room: Room) -> Result<Kept, NoMemory>
    ensures fields { IfOk result (λ k. k.fields ≡ []) }
    ensures numbers { IfOk result (λ k. k.numbers.items ≡ []) }
    ensures faults { IfOk result (λ k. k.faults ≡ []) }
{
    let fields = Fields::with_room(alloc, room.bytes, room.fields)?;
    let numbers = Vec::with_capacity(alloc, room.records)?;
    let faults = Entries::new(alloc);
    Ok(Kept {
        fields,
        numbers,
        faults,
    })
}

// Keeps a good record.
fn keep_good(kept: &mut Kept, row: &ByteRecord, number: u32, width: usize) -> Result<(), NoMemory>
    requires holds { HoldsRecords width kept.old.numbers.items kept.old.fields }
    requires good { raised_by width (fields_of row.now) ≡ None }
    ensures holds { OnOk result (HoldsRecords width kept.new.numbers.items kept.new.fields) }
    ensures good { OnOk result (rows_from width kept.new.numbers.items kept.new.fields ≡ rows_from width kept.old.numbers.items kept.old.fields ++ (number, fields_of row.now) ∷ []) }
    ensures faults { OnOk result (kept.new.faults ≡ kept.old.faults) }
{
    push_fields(&mut kept.fields, row)?;
    kept.numbers.push(number)?;
    Ok(())
}

// Keeps what a faulty record raised.
fn keep_fault(
    alloc: Global,
    kept: &mut Kept,
    operator: u32,
    number: u32,
    class: Class,
) -> Result<(), NoMemory>
    ensures faults { OnOk result (kept.new.faults ≡ kept.old.faults ++ entry_of operator number class ∷ []) }
    ensures fields { OnOk result (kept.new.fields ≡ kept.old.fields) }
    ensures numbers { OnOk result (kept.new.numbers ≡ kept.old.numbers) }
{
    let mut origin = Origin::new(alloc);
    origin.push(Mark { operator, number })?;
    kept.faults.add(Entry {
        operator,
        class,
        origin,
    })?;
    Ok(())
}

// Keeps a record.
fn keep(
    alloc: Global,
    kept: &mut Kept,
    row: &ByteRecord,
    operator: u32,
    number: u32,
    width: usize,
) -> Result<(), NoMemory>
    requires { HoldsRecords width kept.old.numbers.items kept.old.fields }
    ensures holds { OnOk result (HoldsRecords width kept.new.numbers.items kept.new.fields) }
    ensures good { OnOk result (rows_from width kept.new.numbers.items kept.new.fields ≡ rows_from width kept.old.numbers.items kept.old.fields ++ good_in width ((number, fields_of row.now) ∷ [])) }
    ensures faults { OnOk result (kept.new.faults ≡ kept.old.faults ++ faults_in operator width ((number, fields_of row.now) ∷ [])) }
{
    match raised_by(row, width) {
        None => keep_good(kept, row, number, width),
        Some(class) => keep_fault(alloc, kept, operator, number, class),
    }
}

// The source of what was kept.
fn finished(dialect: Dialect, operator: u32, names: Names, kept: Kept) -> CsvSource
    requires { HoldsRecords (length names) kept.numbers.items kept.fields }
    ensures { result ≡ kept_source dialect operator names (rows_from (length names) kept.numbers.items kept.fields) kept.faults }
{
    let width = names.len();
    let Kept {
        fields,
        numbers,
        faults,
    } = kept;
    CsvSource {
        names,
        rows: RawRows {
            dialect,
            operator,
            width,
            fields,
            numbers,
        },
        faults,
    }
}

// The source under these names, of the records that a reader has left.
fn source_by(
    alloc: Global,
    dialect: Dialect,
    operator: u32,
    names: Names,
    reader: &mut Reader<&[u8]>,
    room: Room,
) -> Result<CsvSource, NoMemory>
    requires { Stands reader.old }
    ensures { IfOk result (λ s. s ≡ source_by dialect operator names (left_of reader.old)) }
{
    let width = names.len();
    let mut row = ByteRecord::new(alloc);
    let mut kept = nothing_kept(alloc, room)?;
    'records: for number in 1..u32::MAX {
        let found = read_next(reader, &mut row)?;
        if !found {
            return Ok(finished(dialect, operator, names, kept));
        }
        keep(alloc, &mut kept, &row, operator, number, width)?;
    }
    // No file within the limit has so many records.
    Err(NoMemory)
}

// The source of a file without a record.
fn no_columns(alloc: Global, dialect: Dialect, operator: u32) -> Result<CsvSource, NoMemory>
    ensures { IfOk result (λ s. s ≡ source_by dialect operator [] []) }
{
    let room = Room {
        bytes: 0,
        fields: 0,
        records: 0,
    };
    let kept = nothing_kept(alloc, room)?;
    Ok(finished(dialect, operator, Names::new(alloc), kept))
}

// The source whose first record names the columns.
fn source_headed(
    alloc: Global,
    dialect: Dialect,
    operator: u32,
    reader: &mut Reader<&[u8]>,
    room: Room,
) -> Result<CsvSource, NoMemory>
    requires { Stands reader.old }
    ensures { IfOk result (λ s. s ≡ source_headed dialect operator (left_of reader.old)) }
{
    let mut row = ByteRecord::new(alloc);
    let found = read_next(reader, &mut row)?;
    if !found {
        return no_columns(alloc, dialect, operator);
    }
    let names = header_of(alloc, &row)?;
    source_by(alloc, dialect, operator, names, reader, room)
}

/// The source that the bytes of a file make for an operator. One UTF-8 mark at the front counts for nothing, and a second
/// one is data. Without names in the script the first record names the columns; a file without a record has none then.
/// Of the other records, one with another number of fields, then one with a field of more than 1,048,576 bytes, raises
/// RecordError, then one with a field that is no UTF-8 UnicodeDecodeError.
pub fn source(alloc: Global, b: &Bytes, n: &Naming, operator: u32) -> Result<CsvSource, NoMemory>
    ensures { IfOk result (λ s. s ≡ source_of plain operator n.now (records_of plain b.now)) }
{
    let dialect = Dialect::plain(alloc);
    let bytes = b.as_slice();
    let room = room_of(bytes, dialect.delimiter);
    let mut reader = reader_of(alloc, dialect.delimiter, bytes);
    match &n.names {
        Some(names) => {
            let names = copy_names(alloc, names.as_slice())?;
            source_by(alloc, dialect, operator, names, &mut reader, room)
        }
        None => source_headed(alloc, dialect, operator, &mut reader, room),
    }
}

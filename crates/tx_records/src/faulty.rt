// Which records are faulty.
ghost use Rattle.std.specs.Prelude.{◌≡◌};
ghost use Rattle.std.specs.List.{list_any};
ghost use Rattle.csv.specs.Records.{fields_of};
ghost use Rattle.tx_records.specs.Records.{is_no_text, is_too_long, raised_by};

use csv::ByteRecord;
use tx_base::Class;

// How many bytes a field may have.
const FIELD_LIMIT: usize = 1_048_576;

// Whether a field has too many bytes.
fn is_too_long(field: &[u8]) -> bool
    ensures { result ≡ is_too_long field.now }
{
    field.len() > FIELD_LIMIT
}

// Whether a field is no UTF-8.
fn is_no_text(field: &[u8]) -> bool
    ensures { result ≡ is_no_text field.now }
{
    match str::from_utf8(field) {
        Ok(_) => false,
        Err(_) => true,
    }
}

// Whether some field has too many bytes.
fn has_too_long(row: &ByteRecord) -> bool
    ensures { result ≡ list_any is_too_long (fields_of row.now) }
{
    'fields: for i in 0..row.len() {
        if let Some(field) = row.get(i) {
            if is_too_long(field) {
                return true;
            }
        }
    }
    false
}

// Whether some field is no UTF-8.
fn has_no_text(row: &ByteRecord) -> bool
    ensures { result ≡ list_any is_no_text (fields_of row.now) }
{
    'fields: for i in 0..row.len() {
        if let Some(field) = row.get(i) {
            if is_no_text(field) {
                return true;
            }
        }
    }
    false
}

/// What a record raises under so many columns.
pub(crate) fn raised_by(row: &ByteRecord, width: usize) -> Option<Class>
    ensures { result ≡ raised_by width (fields_of row.now) }
{
    if row.len() != width {
        return Some(Class::RecordError);
    }
    if has_too_long(row) {
        return Some(Class::RecordError);
    }
    if has_no_text(row) {
        return Some(Class::UnicodeDecodeError);
    }
    None
}

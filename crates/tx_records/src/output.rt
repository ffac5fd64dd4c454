// The bytes of an output.
ghost use Rattle.std.specs.Prelude.{◌≡◌, ◌∷◌, ◌++◌, [], true, false, Some, None, IfOk, OnOk, IsErrOf, map, take};
ghost use Rattle.csv.specs.Records as csv;
ghost use Rattle.std.specs.Fmt.{signed_decimal};
ghost use Rattle.std.specs.Prelude.{encode_utf8_all};
ghost use Rattle.tx_records.specs.Cell.{field_of, is_scalar};
ghost use Rattle.tx_records.specs.Output.{all_scalar, fields_of, line_of, row_line};
ghost use Rattle.tx_records.specs.Calls.Written.{IsClean, written_by};

use crate::cell::CellError;
use csv::{ByteRecord, Writer, WriterBuilder};
use itoa::Buffer;
use std::alloc::Global;
use std::marker::Model;
use tx_text::{Bytes, NoMemory};
use tx_values::{Names, Row, Value};

// Adds the decimal of an integer to a line.
fn push_int(line: &mut ByteRecord, n: i128) -> Result<(), CellError>
    requires { csv.partial_of line.old ≡ [] }
    ensures fields { OnOk result (csv.fields_of line.new ≡ csv.fields_of line.old ++ encode_utf8_all (signed_decimal n) ∷ []) }
    ensures partial { OnOk result (csv.partial_of line.new ≡ []) }
    ensures memory { IsErrOf result CellError.NotScalar → ⊥ }
{
    line.push_field(Buffer::new().format(n).as_bytes())?;
    Ok(())
}

// Adds the field of a value to a line.
fn push_cell(line: &mut ByteRecord, cell: &Value) -> Result<(), CellError>
    requires { csv.partial_of line.old ≡ [] }
    ensures fields { OnOk result (csv.fields_of line.new ≡ csv.fields_of line.old ++ field_of cell.now ∷ []) }
    ensures partial { OnOk result (csv.partial_of line.new ≡ []) }
    ensures scalar { OnOk result (is_scalar cell.now ≡ true) }
    ensures container { IsErrOf result CellError.NotScalar → is_scalar cell.now ≡ false }
{
    match cell {
        Value::Nil => line.push_field(b"")?,
        Value::Truth(true) => line.push_field(b"True")?,
        Value::Truth(false) => line.push_field(b"False")?,
        Value::Int(n) => push_int(line, *n)?,
        Value::Text(text) => line.push_field(text.as_str().as_bytes())?,
        Value::Tuple(_) | Value::List(_) | Value::Dict(_) => return Err(CellError::NotScalar),
    }
    Ok(())
}

// Makes the line of these cells.
fn fill_line(line: &mut ByteRecord, cells: &[Value]) -> Result<(), CellError>
    ensures fields { OnOk result (csv.fields_of line.new ≡ fields_of cells.now) }
    ensures scalar { OnOk result (all_scalar cells.now ≡ true) }
    ensures container { IsErrOf result CellError.NotScalar → all_scalar cells.now ≡ false }
{
    line.clear();
    'cells: for cell in cells {
        push_cell(line, cell)?;
    }
    Ok(())
}

// Makes the line of these names.
fn fill_header(line: &mut ByteRecord, names: &[Bytes]) -> Result<(), NoMemory>
    ensures { OnOk result (csv.fields_of line.new ≡ names.now) }
{
    line.clear();
    'names: for name in names {
        line.push_field(name.as_slice())?;
    }
    Ok(())
}

// A writer that has written nothing, for rows of any number of fields.
fn fresh_writer(alloc: Global) -> Writer<Vec<u8>>
    ensures clean { IsClean result }
    ensures empty { written_by (λ v. v.items) result ≡ [] }
{
    WriterBuilder::new()
        .flexible(true)
        .from_writer(Vec::new(alloc))
}

// Writes a line, if it has fields. Where memory is refused, all that was written is lost.
fn write_line(
    alloc: Global,
    writer: &mut Writer<Vec<u8>>,
    line: &ByteRecord,
) -> Result<(), NoMemory>
    requires { IsClean writer.old }
    ensures text { OnOk result (written_by (λ v. v.items) writer.new ≡ written_by (λ v. v.items) writer.old ++ line_of (csv.fields_of line.now)) }
    ensures clean { IsClean writer.new }
{
    if line.is_empty() {
        return Ok(());
    }
    match writer.write_byte_record(line) {
        Ok(()) => Ok(()),
        Err(_) => {
            *writer = fresh_writer(alloc);
            Err(NoMemory)
        }
    }
}

/// An output that lines are added to, without memory of its own for each. Contracts see its bytes. Where memory is
/// refused, it is lost: what it holds then is not said.
#[derive(Drop)]
pub struct Output {
    alloc: Global,
    writer: Writer<Vec<u8>>,
    // The fields of the line that is being made.
    line: ByteRecord,
}

impl Model for Output {
    ghost use Rattle.std.specs.Prelude.{List, ℕ};
    ghost use Rattle.tx_records.specs.Calls.Written.{IsClean, written_by};

    ghost Value = { List ℕ };

    ghost view = { λ o. written_by (λ v. v.items) o.writer };

    ghost invariant = { λ o. IsClean o.writer };
}

impl Output {
    /// No bytes yet.
    pub fn new(alloc: Global) -> Output
        ensures { result ≡ [] }
    {
        Output {
            alloc,
            writer: fresh_writer(alloc),
            line: ByteRecord::new(alloc),
        }
    }

    /// Adds the line of the names; no bytes where there are none.
    pub fn add_header(&mut self, names: &Names) -> Result<(), NoMemory>
        ensures { OnOk result (self.new ≡ self.old ++ line_of names.now) }
    {
        fill_header(&mut self.line, names.as_slice())?;
        write_line(self.alloc, &mut self.writer, &self.line)
    }

    /// Adds the line of a row; no bytes where it has no cells. A row with a container leaves the output as it is.
    pub fn add_row(&mut self, row: &Row) -> Result<(), CellError>
        ensures ok { OnOk result (self.new ≡ self.old ++ line_of (fields_of row.now.cells)) }
        ensures scalar { OnOk result (all_scalar row.now.cells ≡ true) }
        ensures container { IsErrOf result CellError.NotScalar → all_scalar row.now.cells ≡ false }
        ensures kept { IsErrOf result CellError.NotScalar → self.new ≡ self.old }
    {
        fill_line(&mut self.line, row.cells.as_slice())?;
        write_line(self.alloc, &mut self.writer, &self.line)?;
        Ok(())
    }

    /// All bytes.
    pub fn into_bytes(self) -> Result<Bytes, NoMemory>
        ensures { IfOk result (λ b. b ≡ self) }
    {
        let Output {
            alloc: _,
            writer,
            line: _,
        } = self;
        match writer.into_inner() {
            Ok(text) => Ok(Bytes::from_vec(text)),
            Err(_) => Err(NoMemory),
        }
    }
}

/// The header of an output: the line of the names, and no bytes without columns.
pub fn write_header(alloc: Global, n: &Names) -> Result<Bytes, NoMemory>
    ensures { IfOk result (λ b. b ≡ line_of n.now) }
{
    let mut output = Output::new(alloc);
    output.add_header(n)?;
    output.into_bytes()
}

/// The line of a row, which has none exactly where one of its cells is a container. For many rows there is `Output`.
pub fn write_row(alloc: Global, r: &Row) -> Result<Bytes, CellError>
    ensures line { IfOk result (λ b. row_line r.now.cells ≡ Some b) }
    ensures container { IsErrOf result CellError.NotScalar → row_line r.now.cells ≡ None }
{
    let mut output = Output::new(alloc);
    output.add_row(r)?;
    Ok(output.into_bytes()?)
}

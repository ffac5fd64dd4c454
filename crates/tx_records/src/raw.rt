// The good records of a source, kept as bytes.
ghost use Rattle.std.specs.Prelude.{◌≡◌, ◌<◌, [], length, map, IfOk, IsUtf8, unwrap_or};
ghost use Rattle.tx_records.specs.Cell.{value_of};
ghost use Rattle.tx_records.specs.Records.{field_in, numbered_at, row_of};

use crate::cell::value_of;
use crate::dialect::Dialect;
use crate::fields::Fields;
use std::marker::Model;
use tx_text::NoMemory;
use tx_values::{Items, Mark, Origin, Row, Value};

/// The good records of a source, as fields: a row is read of them when it is asked for. Contracts see the records with
/// their numbers, the dialect and the operator.
#[derive(Drop)]
pub struct RawRows {
    pub(crate) dialect: Dialect,
    pub(crate) operator: u32,
    pub(crate) width: usize,
    pub(crate) fields: Fields,
    pub(crate) numbers: Vec<u32>,
}

impl Model for RawRows {
    ghost use Rattle.tx_records.specs.Records.{Raw};
    ghost use Rattle.tx_records.specs.Calls.Packed.{HoldsRecords, rows_from};

    ghost Value = { Raw };

    ghost view = { λ r. record { dialect = r.dialect; operator = r.operator; records = rows_from r.width r.numbers.items r.fields } };

    ghost invariant = { λ r. HoldsRecords r.width r.numbers.items r.fields };
}

impl RawRows {
    /// How many good records there are.
    pub fn len(&self) -> usize
        ensures { result ≡ length self.now.records }
    {
        self.numbers.len()
    }

    /// A field of a good record, as it stands in the file; an empty one where there is no such record or column.
    pub fn field(&self, row: usize, column: usize) -> &[u8]
        ensures value { result.now ≡ unwrap_or (field_in self.now row column) [] }
        ensures text { IsUtf8 result.now }
    {
        let _fields = self.fields.len();
        if row < self.numbers.len() && column < self.width {
            return self.fields.get(row * self.width + column);
        }
        b""
    }

    // The value of a field.
    fn cell(&self, row: usize, column: usize) -> Result<Value, NoMemory>
        ensures { IfOk result (λ v. v ≡ value_of self.now.dialect.null (unwrap_or (field_in self.now row column) [])) }
    {
        let alloc = *self.numbers.allocator();
        let Ok(field) = str::from_utf8(self.field(row, column)) else {
            unreachable!();
        };
        value_of(alloc, &self.dialect.null, field)
    }

    // The values of a good record.
    fn cells_of(&self, row: usize) -> Result<Items, NoMemory>
        requires { row < length self.now.records }
        ensures { IfOk result (λ cells. cells ≡ map (value_of self.now.dialect.null) (numbered_at self.now row).1) }
    {
        let width = self.width;
        let mut cells = Vec::with_capacity(*self.numbers.allocator(), width)?;
        'columns: for column in 0..width {
            let cell = self.cell(row, column)?;
            cells.push(cell)?;
        }
        Ok(Items::from_vec(cells))
    }

    // The number of a good record.
    fn number_of(&self, row: usize) -> u32
        requires { row < length self.now.records }
        ensures { result ≡ (numbered_at self.now row).0 }
    {
        self.numbers[row]
    }

    /// The row of a good record: its cells by the cell rule, and where it comes from.
    pub fn row(&self, row: usize) -> Result<Row, NoMemory>
        requires { row < length self.now.records }
        ensures { IfOk result (λ r. r ≡ row_of self.now (numbered_at self.now row)) }
    {
        let cells = self.cells_of(row)?;
        let number = self.number_of(row);
        let operator = self.operator;
        let mut origin = Origin::new(*self.numbers.allocator());
        origin.push(Mark { operator, number })?;
        Ok(Row { cells, origin })
    }
}

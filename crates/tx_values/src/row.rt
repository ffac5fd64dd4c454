// Rows: cells, and where they come from.
ghost use Rattle.std.specs.Prelude.{◌≡◌, ◌<◌, ◌-◌, ◌^◌, [], ◌∷◌, ◌++◌, IfOk, OnOk, OnErr, IsErr, length, slice_get};
ghost use Rattle.std.specs.Option.{option_copied};

use crate::copying::copies_of;
use crate::{Items, Value};
use smallvec::SmallVec;
use std::alloc::Global;
use std::marker::Model;
use tx_text::{Bytes, NoMemory, Sequence};

/// The number of a row at the operator that it came from: record 3 of operator 1 is `1:3`.
#[derive(Clone, Copy, Debug, Default, PartialEq, Eq)]
pub struct Mark {
    pub operator: u32,
    pub number: u32,
}

/// Where a row comes from: one mark, and in a joined row those of the left row and then those of the right one. Contracts
/// see the list of the marks; two of them take no memory of their own.
#[derive(Drop)]
pub struct Origin {
    marks: SmallVec<Mark, 2>,
}

impl Model for Origin {
    ghost use Rattle.std.specs.Prelude.{List};
    ghost use Rattle.tx_values.specs.declared.row.Mark.{Mark};

    ghost Value = { List Mark };

    ghost view = { λ o. o.marks.items };
}

impl Origin {
    /// The empty list, which takes no memory yet.
    pub fn new(alloc: Global) -> Self
        ensures { result ≡ [] }
    {
        Origin {
            marks: SmallVec::new(alloc),
        }
    }

    pub fn len(&self) -> usize
        ensures { result ≡ length self.now }
    {
        self.marks.as_slice().len()
    }

    pub fn get(&self, at: usize) -> Option<&Mark>
        ensures { option_copied result ≡ slice_get self.now at }
    {
        self.marks.as_slice().get(at)
    }

    pub fn as_slice(&self) -> &[Mark]
        ensures { result.now ≡ self.now }
    {
        self.marks.as_slice()
    }

    /// Adds a mark at the end. Where memory is refused, the origin is as before.
    pub fn push(&mut self, item: Mark) -> Result<(), NoMemory>
        ensures ok { OnOk result (self.new ≡ self.old ++ item ∷ []) }
        ensures err { OnErr result (self.new ≡ self.old) }
    {
        self.marks.push(item)?;
        Ok(())
    }

    /// The same origin, made anew.
    pub fn copy(&self) -> Result<Origin, NoMemory>
        ensures { IfOk result (λ o. o ≡ self.now) }
    {
        let marks = SmallVec::from_slice(*self.marks.allocator(), self.marks.as_slice())?;
        Ok(Origin { marks })
    }
}

/// A list of origins.
pub type Origins = Sequence<Origin>;

/// The names of columns, each a list of bytes.
pub type Names = Sequence<Bytes>;

/// The names that a script gives the columns of a source, if it does.
#[derive(Drop)]
pub struct Naming {
    pub names: Option<Names>,
}

/// The cells of a row, and where it comes from.
#[derive(Drop)]
pub struct Row {
    pub cells: Items,
    pub origin: Origin,
}

// A row of one cell takes these bytes, its text aside, where its cells have exactly the room that they need.
const _: () = prove!(size_of::<Row>() + size_of::<Value>() <= 104);

/// The same row, made anew: its cells take exactly the room that they need.
pub fn copy_row(alloc: Global, a: &Row) -> Result<Row, NoMemory>
    ensures { IfOk result (λ r. r ≡ a.now) }
{
    let cells = Items::from_vec(copies_of(alloc, a.cells.as_slice())?);
    let origin = a.origin.copy()?;
    Ok(Row { cells, origin })
}

/// A list of rows, fewer than 2^32.
#[derive(Drop)]
pub struct Rows {
    rows: Sequence<Row>,
}

impl Model for Rows {
    ghost use Rattle.std.specs.Prelude.{List, ◌<◌, ◌^◌, length};
    ghost use Rattle.std.specs.Coded.{coded_list};
    ghost use Rattle.tx_values.specs.contracts.row.Row as row;
    ghost use Rattle.tx_values.specs.declared.row.Row.{Row};

    ghost Value = { List Row };

    ghost coded = { coded_list row.the_row.coded };

    ghost view = { λ r. r.rows };

    ghost invariant = { λ r. length r.rows < 2 ^ 32 };
}

impl Rows {
    /// The greatest number of rows of a list: a row's number is a `u32`.
    pub const MOST: usize = u32::MAX as usize;

    /// The empty list, which takes no memory yet.
    pub fn new(alloc: Global) -> Self
        ensures { result ≡ [] }
    {
        Rows {
            rows: Sequence::new(alloc),
        }
    }

    pub fn len(&self) -> usize
        ensures len { result ≡ length self.now }
        ensures few { result < 2 ^ 32 }
    {
        self.rows.len()
    }

    pub fn get(&self, at: usize) -> Option<&Row>
        ensures { option_copied result ≡ slice_get self.now at }
    {
        self.rows.get(at)
    }

    pub fn as_slice(&self) -> &[Row]
        ensures { result.now ≡ self.now }
    {
        self.rows.as_slice()
    }

    /// Adds a row at the end. Where memory is refused, the list is as before and the row is dropped; memory counts as
    /// refused where the list holds 2^32 - 1 rows.
    pub fn push(&mut self, item: Row) -> Result<(), NoMemory>
        ensures ok { OnOk result (self.new ≡ self.old ++ item ∷ []) }
        ensures err { OnErr result (self.new ≡ self.old) }
        ensures full { length self.old ≡ 2 ^ 32 - 1 → IsErr result }
    {
        if self.rows.len() >= Self::MOST {
            return Err(NoMemory);
        }
        self.rows.push(item)
    }
}

// A smaller number would refuse rows that a list is to hold.
const _: () = prove!(Rows::MOST == 4_294_967_295);

/// A list of lists of rows.
pub type RowLists = Sequence<Rows>;

// Fields in one buffer of bytes.
ghost use Rattle.std.specs.Prelude.{◌≡◌, ◌+◌, ◌<◌, [], ◌∷◌, ◌++◌, get_or, length, Some, IfOk, IfSome, OnOk, OnErr, slice_get};
ghost use Rattle.csv.specs.Records as csv;

use csv::ByteRecord;
use std::alloc::Global;
use std::marker::Model;
use tx_text::NoMemory;

/// Fields one behind the other in one buffer, with the place where each ends: 32 bits, since a file has fewer bytes than
/// that. Contracts see the list of the fields.
#[derive(Drop)]
pub(crate) struct Fields {
    bytes: Vec<u8>,
    ends: Vec<u32>,
}

impl Model for Fields {
    ghost use Rattle.std.specs.Prelude.{◌≡◌, List, ℕ, length};
    ghost use Rattle.csv.specs.Records.{Rising, cut_from, last_end};

    ghost Value = { List (List ℕ) };

    ghost view = { λ f. cut_from 0 f.ends.items f.bytes.items };

    ghost invariant = { λ f. Rising 0 f.ends.items (length f.bytes.items) × (last_end 0 f.ends.items ≡ length f.bytes.items) };
}

// Where the field at a place starts and ends.
fn bounds(ends: &Vec<u32>, at: usize) -> (u32, u32)
    requires { at < length ends.now.items }
    ensures start { result.0 ≡ csv.prev 0 ends.now.items at }
    ensures end { result.1 ≡ get_or ends.now.items at 0 }
{
    let start = if at == 0 { 0 } else { ends[at - 1] };
    (start, ends[at])
}

// Where a field ends that begins at a place and has so many bytes; none past 32 bits.
fn end_of(start: usize, len: usize) -> Option<u32>
    ensures { IfSome result (λ end. end ≡ start + len) }
{
    let most = u32::MAX as usize;
    if start <= most && len <= most - start {
        Some((start + len) as u32)
    } else {
        None
    }
}

impl Fields {
    /// No fields, with room for so many bytes and fields.
    pub(crate) fn with_room(alloc: Global, bytes: usize, fields: usize) -> Result<Fields, NoMemory>
        ensures { IfOk result (λ f. f ≡ []) }
    {
        Ok(Fields {
            bytes: Vec::with_capacity(alloc, bytes)?,
            ends: Vec::with_capacity(alloc, fields)?,
        })
    }

    pub(crate) fn len(&self) -> usize
        ensures { result ≡ length self.now }
    {
        self.ends.len()
    }

    /// The field at a place.
    pub(crate) fn get(&self, at: usize) -> &[u8]
        requires { at < length self.now }
        ensures { slice_get self.now at ≡ Some result.now }
    {
        let (start, end) = bounds(&self.ends, at);
        &self.bytes.as_slice()[start as usize..end as usize]
    }

    /// Adds a field at the end. Where memory is refused, the fields are as before; memory counts as refused past 2^32
    /// bytes.
    pub(crate) fn push(&mut self, field: &[u8]) -> Result<(), NoMemory>
        ensures ok { OnOk result (self.new ≡ self.old ++ field.now ∷ []) }
        ensures err { OnErr result (self.new ≡ self.old) }
    {
        let start = self.bytes.len();
        let Some(end) = end_of(start, field.len()) else {
            return Err(NoMemory);
        };
        self.bytes.extend_from_slice(field)?;
        if self.ends.push(end).is_err() {
            self.bytes.truncate(start);
            return Err(NoMemory);
        }
        Ok(())
    }
}

/// Adds the fields of a record at the end.
pub(crate) fn push_fields(fields: &mut Fields, row: &ByteRecord) -> Result<(), NoMemory>
    ensures { OnOk result (fields.new ≡ fields.old ++ csv.fields_of row.now) }
{
    'columns: for i in 0..row.len() {
        if let Some(field) = row.get(i) {
            fields.push(field)?;
        }
    }
    Ok(())
}

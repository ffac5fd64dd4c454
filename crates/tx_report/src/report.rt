// Entries of a report, and their text.
ghost use Rattle.std.specs.Prelude.{◌≡◌, [], ◌∷◌, ◌++◌, length, decimal, IfOk, OnOk, OnErr, slice_get};
ghost use Rattle.std.specs.Option.{option_copied};
ghost use Rattle.tx_report.specs.Report.{further_text, kind_of, line_of, mark_text, origin_text, report_text};

use itoa::Buffer;
use std::alloc::Global;
use std::marker::Model;
use tx_base::{Class, class_name};
use tx_text::{Bytes, NoMemory, Sequence, Texts};
use tx_values::{Mark, Origin};

/// An exception that was reported: the operator that raised it, by its number in the script from 1, its class, and the
/// row that it was raised on.
#[derive(Drop)]
pub struct Entry {
    pub operator: u32,
    pub class: Class,
    pub origin: Origin,
}

/// A list of entries, in the order in which they were added.
#[derive(Drop)]
pub struct Entries {
    entries: Sequence<Entry>,
}

impl Model for Entries {
    ghost use Rattle.std.specs.Prelude.{List};
    ghost use Rattle.std.specs.Coded.{coded_list};
    ghost use Rattle.tx_report.specs.contracts.report.Entry as entry;
    ghost use Rattle.tx_report.specs.declared.report.Entry.{Entry};

    ghost Value = { List Entry };

    ghost coded = { coded_list entry.the_row.coded };

    ghost view = { λ e. e.entries };
}

// Adds a number in decimal.
fn push_number(text: &mut Bytes, number: u32) -> Result<(), NoMemory>
    ensures { OnOk result (text.new ≡ text.old ++ decimal number) }
{
    text.push_all(Buffer::new().format(number).as_bytes())
}

// Adds a mark, as `1:3`.
fn push_mark(text: &mut Bytes, mark: Mark) -> Result<(), NoMemory>
    ensures { OnOk result (text.new ≡ text.old ++ mark_text mark) }
{
    push_number(text, mark.operator)?;
    text.push_all(b":")?;
    push_number(text, mark.number)
}

// Adds the marks behind the first.
fn push_further(text: &mut Bytes, marks: &[Mark]) -> Result<(), NoMemory>
    ensures { OnOk result (text.new ≡ text.old ++ further_text marks.now) }
{
    'marks: for mark in marks {
        text.push_all(b"+")?;
        push_mark(text, *mark)?;
    }
    Ok(())
}

// Adds the marks of a row.
fn push_origin(text: &mut Bytes, marks: &[Mark]) -> Result<(), NoMemory>
    ensures { OnOk result (text.new ≡ text.old ++ origin_text marks.now) }
{
    let [first, more @ ..] = marks else {
        return Ok(());
    };
    push_mark(text, *first)?;
    push_further(text, more)
}

// The word of an operator, in UTF-8.
fn kind_of(kinds: &Texts, operator: u32) -> &[u8]
    ensures { result.now ≡ kind_of kinds.now operator }
{
    match kinds.get(operator.saturating_sub(1) as usize) {
        Some(kind) => kind.as_str().as_bytes(),
        None => b"",
    }
}

// Adds the line of an entry.
fn push_line(text: &mut Bytes, kinds: &Texts, entry: &Entry) -> Result<(), NoMemory>
    ensures { OnOk result (text.new ≡ text.old ++ line_of kinds.now entry.now) }
{
    push_number(text, entry.operator)?;
    text.push_all(b",")?;
    text.push_all(kind_of(kinds, entry.operator))?;
    text.push_all(b",")?;
    text.push_all(class_name(entry.class).as_bytes())?;
    text.push_all(b",")?;
    push_origin(text, entry.origin.as_slice())?;
    text.push_all(b"\n")?;
    Ok(())
}

impl Entries {
    /// The empty list, which takes no memory yet.
    pub fn new(alloc: Global) -> Self
        ensures { result ≡ [] }
    {
        Entries {
            entries: Sequence::new(alloc),
        }
    }

    pub fn len(&self) -> usize
        ensures { result ≡ length self.now }
    {
        self.entries.len()
    }

    pub fn get(&self, at: usize) -> Option<&Entry>
        ensures { option_copied result ≡ slice_get self.now at }
    {
        self.entries.get(at)
    }

    pub fn as_slice(&self) -> &[Entry]
        ensures { result.now ≡ self.now }
    {
        self.entries.as_slice()
    }

    /// Adds an entry at the end. Where memory is refused, the list is as before and the entry is dropped.
    pub fn add(&mut self, e: Entry) -> Result<(), NoMemory>
        ensures ok { OnOk result (self.new ≡ self.old ++ e ∷ []) }
        ensures err { OnErr result (self.new ≡ self.old) }
    {
        self.entries.push(e)
    }

    /// The bytes of the report. `kinds` has the word of each operator, as `withColumn`, that of operator 1 first.
    pub fn text(&self, alloc: Global, kinds: &Texts) -> Result<Bytes, NoMemory>
        ensures { IfOk result (λ text. text ≡ report_text kinds.now self.now) }
    {
        let mut text = Bytes::new(alloc);
        text.push_all(b"operator,kind,class,row\n")?;
        'entries: for entry in self.entries.as_slice() {
            push_line(&mut text, kinds, entry)?;
        }
        Ok(text)
    }
}

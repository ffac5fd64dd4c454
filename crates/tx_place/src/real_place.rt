// Files of the system: the trusted edge. It tells neither what it holds nor the name of a call that failed.
ghost use Rattle.std.specs.Prelude.{◌≡◌, ◌≤◌, ◌<◌, IfOk, IfSome, OnOk, None, option_map, length, take};
ghost use Rattle.std.specs.Str.{chars};
ghost use Rattle.std.specs.Io.KnownBytes as known;
ghost use Rattle.tx_place.specs.Place.{ReadsAt, Creates, Appends};
ghost use Rattle.tx_place.specs.Real.{silent_place};
ghost use Rattle.tx_place.specs.Calls.Reading.{GaveFrom};

use crate::{CallError, Place};
use std::alloc::Global;
use std::fs::{File, Files};
use std::io;
use std::io::{Read, Seek, SeekFrom, Write};
use tx_text::PyText;

#[derive(Drop)]
struct Opened<F: Drop> {
    name: PyText,
    file: F,
}

/// Files of the system by their paths. It keeps the file of its last `create` open, and appends to that. A file is
/// opened anew for each read: where it is replaced in between, the pieces are of both.
#[derive(Drop)]
pub struct RealPlace<R: Files + Drop> {
    alloc: Global,
    files: R,
    opened: Option<Opened<R::File>>,
    read_faults: u64,
    write_faults: u64,
}

impl<R: Files + Drop> RealPlace<R> {
    /// No file is open, and both counts are at 0.
    pub fn new(alloc: Global, files: R) -> Self
        ensures reads { result.read_faults ≡ 0 }
        ensures writes { result.write_faults ≡ 0 }
        ensures closed { option_map (λ o. o.name) result.opened ≡ None }
    {
        RealPlace {
            alloc,
            files,
            opened: None,
            read_faults: 0,
            write_faults: 0,
        }
    }
}

// Fills `into` with what a file has next, as far as it has anything.
fn fill<F: Read>(file: &mut F, into: &mut [u8]) -> io::Result<usize>
    ensures within { IfOk result (λ n. n ≤ length into.new) }
    ensures next { IfOk result (λ n. known.Consumes (F.remaining file.old) (F.remaining file.new) (take n into.new)) }
    ensures full { IfOk result (λ n. n < length into.new → known.IsAtEnd (F.remaining file.new)) }
{
    let mut taken = 0;
    while taken < into.len() {
        let more = file.read(&mut into[taken..])?;
        if more == 0 {
            return Ok(taken);
        }
        taken += more;
    }
    Ok(taken)
}

// Fills `into` with the bytes of a file from a place on, as far as there are any.
fn read_from<F: Read + Seek>(file: &mut F, at: u64, into: &mut [u8]) -> io::Result<usize>
    ensures within { IfOk result (λ n. n ≤ length into.new) }
    ensures there { IfOk result (λ n. GaveFrom F.stream_position F.remaining at file.old file.new (take n into.new)) }
    ensures full { IfOk result (λ n. n < length into.new → known.IsAtEnd (F.remaining file.new)) }
{
    file.seek(SeekFrom::Start(at))?;
    fill(file, into)
}

// The same of the file of a name.
fn read_named<R: Files>(files: &R, name: &str, at: u64, into: &mut [u8]) -> io::Result<usize>
    ensures { IfOk result (λ n. n ≤ length into.new) }
{
    let mut file = File::open(files, name)?;
    read_from(&mut file, at, into)
}

impl<R: Files + Drop> Place for RealPlace<R> {
    ghost state = { λ p. silent_place p.read_faults p.write_faults (option_map (λ o. o.name) p.opened) };

    fn read_at(&mut self, name: &str, at: u64, into: &mut [u8]) -> Result<usize, CallError> {
        match read_named(&self.files, name, at, into) {
            Ok(taken) => Ok(taken),
            Err(_) => {
                self.read_faults = self.read_faults.saturating_add(1);
                Err(CallError::Failed)
            }
        }
    }

    fn create(&mut self, name: &str) -> Result<(), CallError> {
        self.opened = None;
        let Ok(own) = PyText::from_str(self.alloc, name) else {
            return Err(CallError::NoMemory);
        };
        match File::create(&self.files, name) {
            Ok(file) => {
                self.opened = Some(Opened { name: own, file });
                Ok(())
            }
            Err(_) => {
                self.write_faults = self.write_faults.saturating_add(1);
                Err(CallError::Failed)
            }
        }
    }

    fn append(&mut self, name: &str, bytes: &[u8]) -> Result<(), CallError>
        ensures does { Appends result (chars name.now) bytes.now
            (silent_place self.old.read_faults self.old.write_faults (option_map (λ o. o.name) self.old.opened))
            (silent_place self.new.read_faults self.new.write_faults (option_map (λ o. o.name) self.new.opened)) }
        ensures written { OnOk result (IfSome self.old.opened (λ o. IfSome self.new.opened (λ p.
            known.Appends (R.File.contents o.file) (R.File.contents p.file) bytes.now))) }
    {
        if let Some(opened) = &mut self.opened {
            if opened.file.write_all(bytes).is_ok() {
                return Ok(());
            }
        }
        self.write_faults = self.write_faults.saturating_add(1);
        Err(CallError::Failed)
    }
}

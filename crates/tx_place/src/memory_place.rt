// Files in memory, of which any call can be made to fail.
ghost use Rattle.std.specs.Prelude.{◌≡◌, ◌≤◌, ◌<◌, ◌⊎◌, ◌++◌, ◌-◌, ◌/◌, ℕ, [], ◌∷◌, length, min, take, drop, true, Some, None, OnOk, OnErr, IfOk, IfSome, IsErrOf, IsErr, MatchOption, option_map};
ghost use Rattle.std.specs.Str.{chars, bytes_eq};
ghost use Rattle.tx_place.specs.Place.{ReadsAt, Creates, Appends, TookBytes, with_file, with_added};
ghost use Rattle.tx_place.specs.Count.{next_count};
ghost use Rattle.tx_place.specs.Memory.{held_by, is_failing};
ghost use Rattle.tx_place.specs.Calls.Files.{put, added, replaced, extended, IsAt};

use crate::{CallError, Place};
use std::alloc::Global;
use std::marker::Model;
use tx_text::{Bytes, NoMemory, Numbers, PyText, Sequence};

/// Pairs of a name and bytes. Of two with one name the first one counts.
pub type Files = Sequence<(PyText, Bytes)>;

fn is_named(file: &(PyText, Bytes), name: &str) -> bool
    ensures { result ≡ bytes_eq (chars name.now) file.now.0 }
{
    name == file.0.as_str()
}

/// The bytes of the first file of that name.
fn find<'a>(files: &'a [(PyText, Bytes)], name: &str) -> Option<&'a Bytes>
    ensures { option_map (λ b. b.now) result ≡ held_by files.entry.now (chars name.now) }
{
    match files {
        [] => None,
        [first, rest @ ..] => {
            if is_named(first, name) {
                Some(&first.1)
            } else {
                find(rest, name)
            }
        }
    }
}

/// The place of the first file of that name.
fn place_of(files: &[(PyText, Bytes)], name: &str) -> Option<usize>
    ensures within { IfSome result (λ i. i < length files.now) }
    ensures there { MatchOption result (held_by files.now (chars name.now) ≡ None) (IsAt files.now (chars name.now)) }
{
    match files {
        [] => None,
        [first, rest @ ..] => {
            if is_named(first, name) {
                Some(0)
            } else {
                Some(place_of(rest, name)? + 1)
            }
        }
    }
}

// Puts bytes in the place of those of one file.
fn replace(files: &mut Vec<(PyText, Bytes)>, at: usize, bytes: Bytes)
    requires { at < length files.old.items }
    ensures { files.new.items ≡ replaced files.old.items at bytes }
{
    files[at].1 = bytes;
}

// Adds bytes to those of one file.
fn extend(files: &mut Vec<(PyText, Bytes)>, at: usize, bytes: &[u8]) -> Result<(), NoMemory>
    requires { at < length files.old.items }
    ensures ok { OnOk result (files.new.items ≡ extended files.old.items at bytes.now) }
    ensures err { OnErr result (files.new.items ≡ files.old.items) }
{
    files[at].1.push_all(bytes)
}

// Makes the file of a name empty: in the list, the first of that name, or one more at the end.
#[tactic(auto, using(crate::proofs::Named::put_there, crate::proofs::Named::put_absent))]
fn put_empty(
    alloc: Global,
    files: &mut Vec<(PyText, Bytes)>,
    name: &str,
    own: PyText,
) -> Result<(), NoMemory>
    requires { own ≡ chars name.now }
    ensures ok { OnOk result (files.new.items ≡ put files.old.items (chars name.now) []) }
    ensures err { OnErr result (files.new.items ≡ files.old.items) }
{
    if let Some(at) = place_of(files.as_slice(), name) {
        replace(files, at, Bytes::new(alloc));
        return Ok(());
    }
    files.push((own, Bytes::new(alloc)))?;
    Ok(())
}

// Adds bytes to the file of a name, if there is one.
#[tactic(auto, using(crate::proofs::Named::added_there, crate::proofs::Named::added_absent))]
fn put_more(files: &mut Vec<(PyText, Bytes)>, name: &str, bytes: &[u8]) -> Result<(), NoMemory>
    ensures ok { OnOk result (files.new.items ≡ added files.old.items (chars name.now) bytes.now) }
    ensures err { OnErr result (files.new.items ≡ files.old.items) }
{
    match place_of(files.as_slice(), name) {
        Some(at) => extend(files, at, bytes),
        None => Ok(()),
    }
}

/// Makes the file of this name empty.
fn empty(
    alloc: Global,
    files: &mut Vec<(PyText, Bytes)>,
    name: &str,
    own: PyText,
) -> Result<(), NoMemory>
    requires { own ≡ chars name.now }
    ensures ok { OnOk result (held_by files.new.items ≡ with_file (held_by files.old.items) (chars name.now) []) }
    ensures err { OnErr result (files.new.items ≡ files.old.items) }
{
    put_empty(alloc, files, name, own)
}

/// Adds bytes to the file of this name, if there is one.
fn add(files: &mut Vec<(PyText, Bytes)>, name: &str, bytes: &[u8]) -> Result<(), NoMemory>
    ensures ok { OnOk result (held_by files.new.items ≡ with_added (held_by files.old.items) (chars name.now) bytes.now) }
    ensures err { OnErr result (held_by files.new.items ≡ with_added (held_by files.old.items) (chars name.now) []) }
    ensures kept { OnErr result (files.new.items ≡ files.old.items) }
{
    put_more(files, name, bytes)
}

pub(crate) fn is_failing(failing: &[u64], number: u64) -> bool
    ensures { result ≡ is_failing failing.now number }
{
    failing.iter().any(|n| *n == number)
}

/// Some of the bytes from a place on: as many as are left, as `into` takes, and at most `most`.
fn take_from(bytes: &[u8], at: u64, most: usize, into: &mut [u8]) -> usize
    requires { 0 < most }
    ensures within { result ≤ length into.old }
    ensures took { TookBytes bytes.now at result into.new }
    ensures least { result ≡ min (min (length bytes.now - at) (length into.old)) most }
    ensures rest { drop result into.new ≡ drop result into.old }
{
    let Ok(from) = usize::try_from(at) else {
        return 0;
    };
    if from >= bytes.len() {
        return 0;
    }
    let rest = &bytes[from..];
    let taken = rest.len().min(into.len()).min(most);
    into[..taken].copy_from_slice(&rest[..taken]);
    taken
}

/// Files in memory, for tests. It numbers all its calls from 1; those of the given numbers fail, and a read gives at
/// most `most` bytes.
#[derive(Drop)]
pub struct MemoryPlace {
    alloc: Global,
    files: Vec<(PyText, Bytes)>,
    failing: Numbers,
    most: usize,
    calls: u64,
    read_faults: u64,
    write_faults: u64,
    failed: Option<PyText>,
    open_file: Option<PyText>,
}

impl Model for MemoryPlace {
    ghost use Rattle.std.specs.Prelude.{◌<◌};
    ghost use Rattle.tx_place.specs.Memory.{MemoryFiles};

    ghost Value = { MemoryFiles };

    ghost view = { λ m. record {
      files = m.files.items;
      failing = m.failing;
      most = m.most;
      calls = m.calls;
      read_faults = m.read_faults;
      write_faults = m.write_faults;
      failed = m.failed;
      open_file = m.open_file;
    } };

    ghost invariant = { λ m. 0 < m.most };
}

impl MemoryPlace {
    /// The files, the numbers of the calls that are to fail, and the greatest size of one read.
    pub fn new(alloc: Global, files: Files, failing: Numbers, most: usize) -> Result<Self, NoMemory>
        requires { 0 < most }
        ensures { IfOk result (λ m. m ≡ record { files = files; failing = failing; most = most; calls = 0; read_faults = 0; write_faults = 0; failed = None; open_file = None }) }
    {
        Ok(MemoryPlace {
            alloc,
            files: files.into_vec(),
            failing,
            most,
            calls: 0,
            read_faults: 0,
            write_faults: 0,
            failed: None,
            open_file: None,
        })
    }

    /// The bytes of the file of this name. This is no call of the place: it has no number, and no fault.
    pub fn bytes_of(&self, name: &str) -> Option<&[u8]>
        ensures { option_map (λ b. b.now) result ≡ held_by self.now.files (chars name.now) }
    {
        match find(self.files.as_slice(), name) {
            Some(bytes) => Some(bytes.as_slice()),
            None => None,
        }
    }
}

impl Place for MemoryPlace {
    ghost use Rattle.std.specs.Prelude.{◌≡◌, IsErr, IsErrOf};
    ghost use Rattle.std.specs.Str.{chars};
    ghost use Rattle.tx_place.specs.Place.{ReadsAt};
    ghost use Rattle.tx_place.specs.Memory.{memory_state, IsReadFailure};

    ghost state = { memory_state };

    fn read_at(&mut self, name: &str, at: u64, into: &mut [u8]) -> Result<usize, CallError>
        ensures does { ReadsAt result (chars name.now) at into.old into.new (memory_state self.old) (memory_state self.new) }
        ensures exact { IsErrOf result CallError.Failed → IsReadFailure self.old (chars name.now) }
        ensures due { IsReadFailure self.old (chars name.now) → IsErr result }
        ensures calls { self.new.calls ≡ next_count self.old.calls }
        ensures failing { self.new.failing ≡ self.old.failing }
        ensures most { self.new.most ≡ self.old.most }
        ensures least { IfOk result (λ n. IfSome (held_by self.old.files (chars name.now)) (λ b. n ≡ min (min (length b - at) (length into.old)) self.old.most)) }
        ensures rest { IfOk result (λ n. drop n into.new ≡ drop n into.old) }
        ensures nothing { OnErr result (into.new ≡ into.old) }
    {
        self.calls = self.calls.saturating_add(1);
        let Ok(own) = PyText::from_str(self.alloc, name) else {
            return Err(CallError::NoMemory);
        };
        if !is_failing(self.failing.as_slice(), self.calls) {
            if let Some(bytes) = find(self.files.as_slice(), name) {
                return Ok(take_from(bytes.as_slice(), at, self.most, into));
            }
        }
        self.failed = Some(own);
        self.read_faults = self.read_faults.saturating_add(1);
        Err(CallError::Failed)
    }

    fn create(&mut self, name: &str) -> Result<(), CallError>
        ensures does { Creates result (chars name.now) (memory_state self.old) (memory_state self.new) }
        ensures exact { IsErrOf result CallError.Failed → is_failing self.old.failing (next_count self.old.calls) ≡ true }
        ensures due { is_failing self.old.failing (next_count self.old.calls) ≡ true → IsErr result }
        ensures calls { self.new.calls ≡ next_count self.old.calls }
        ensures failing { self.new.failing ≡ self.old.failing }
        ensures most { self.new.most ≡ self.old.most }
        ensures kept { OnErr result (self.new.files ≡ self.old.files) }
    {
        self.calls = self.calls.saturating_add(1);
        self.open_file = None;
        let Ok(own) = PyText::from_str(self.alloc, name) else {
            return Err(CallError::NoMemory);
        };
        let Ok(of_file) = PyText::from_str(self.alloc, name) else {
            return Err(CallError::NoMemory);
        };
        if is_failing(self.failing.as_slice(), self.calls) {
            self.failed = Some(own);
            self.write_faults = self.write_faults.saturating_add(1);
            return Err(CallError::Failed);
        }
        empty(self.alloc, &mut self.files, name, of_file)?;
        self.open_file = Some(own);
        Ok(())
    }

    fn append(&mut self, name: &str, bytes: &[u8]) -> Result<(), CallError>
        ensures does { Appends result (chars name.now) bytes.now (memory_state self.old) (memory_state self.new) }
        ensures exact { IsErrOf result CallError.Failed → is_failing self.old.failing (next_count self.old.calls) ≡ true }
        ensures due { is_failing self.old.failing (next_count self.old.calls) ≡ true → IsErr result }
        ensures calls { self.new.calls ≡ next_count self.old.calls }
        ensures failing { self.new.failing ≡ self.old.failing }
        ensures most { self.new.most ≡ self.old.most }
        ensures kept { IsErrOf result CallError.NoMemory → self.new.files ≡ self.old.files }
        ensures half { IsErrOf result CallError.Failed → held_by self.new.files ≡ with_added (held_by self.old.files) (chars name.now) (take (length bytes.now / 2) bytes.now) }
    {
        self.calls = self.calls.saturating_add(1);
        let Ok(own) = PyText::from_str(self.alloc, name) else {
            return Err(CallError::NoMemory);
        };
        if !is_failing(self.failing.as_slice(), self.calls) {
            add(&mut self.files, name, bytes)?;
            return Ok(());
        }
        add(&mut self.files, name, &bytes[..bytes.len() / 2])?;
        self.failed = Some(own);
        self.write_faults = self.write_faults.saturating_add(1);
        Err(CallError::Failed)
    }
}

// A console in memory, of which any call can be made to fail.
ghost use Rattle.std.specs.Prelude.{◌≡◌, ◌++◌, ◌+◌, ℕ, [], IfOk, take, OnOk, OnErr, length, ◌/◌, IsErrOf, IsErr, true};
ghost use Rattle.tx_place.specs.Count.{next_count};
ghost use Rattle.tx_place.specs.Memory.{is_failing};
ghost use Rattle.tx_place.specs.Console.{Says, Complains};

use crate::memory_place::is_failing;
use crate::{CallError, Console};
use std::alloc::Global;
use std::marker::Model;
use tx_text::{Bytes, NoMemory, Numbers};

/// Tells what it was told. The calls of the given numbers fail.
#[derive(Drop)]
pub struct MemoryConsole {
    said: Bytes,
    complained: Bytes,
    failing: Numbers,
    calls: u64,
    say_faults: u64,
    complain_faults: u64,
    memory_refusals: u64,
}

impl Model for MemoryConsole {
    ghost use Rattle.tx_place.specs.Memory.{MemoryTalk};

    ghost Value = { MemoryTalk };

    ghost view = { λ m. record {
      said = m.said;
      complained = m.complained;
      failing = m.failing;
      calls = m.calls;
      say_faults = m.say_faults;
      complain_faults = m.complain_faults;
      memory_refusals = m.memory_refusals;
    } };
}

impl MemoryConsole {
    pub fn new(alloc: Global, failing: Numbers) -> Result<Self, NoMemory>
        ensures { IfOk result (λ m. m ≡ record { said = []; complained = []; failing = failing; calls = 0; say_faults = 0; complain_faults = 0; memory_refusals = 0 }) }
    {
        Ok(MemoryConsole {
            said: Bytes::new(alloc),
            complained: Bytes::new(alloc),
            failing,
            calls: 0,
            say_faults: 0,
            complain_faults: 0,
            memory_refusals: 0,
        })
    }

    pub fn said(&self) -> &[u8]
        ensures { result.now ≡ self.now.said }
    {
        self.said.as_slice()
    }

    pub fn complained(&self) -> &[u8]
        ensures { result.now ≡ self.now.complained }
    {
        self.complained.as_slice()
    }
}

impl Console for MemoryConsole {
    ghost use Rattle.tx_place.specs.Memory.{talk_state};

    ghost state = { talk_state };

    fn say(&mut self, bytes: &[u8]) -> Result<(), CallError>
        ensures does { Says result bytes.now (talk_state self.old) (talk_state self.new) }
        ensures exact { IsErrOf result CallError.Failed → is_failing self.old.failing (next_count self.old.calls) ≡ true }
        ensures due { is_failing self.old.failing (next_count self.old.calls) ≡ true → IsErr result }
        ensures calls { self.new.calls ≡ next_count self.old.calls }
        ensures failing { self.new.failing ≡ self.old.failing }
        ensures kept { IsErrOf result CallError.NoMemory → self.new.said ≡ self.old.said }
        ensures half { IsErrOf result CallError.Failed → self.new.said ≡ self.old.said ++ take (length bytes.now / 2) bytes.now }
    {
        self.calls = self.calls.saturating_add(1);
        let fails = is_failing(self.failing.as_slice(), self.calls);
        let taken = if fails { bytes.len() / 2 } else { bytes.len() };
        if self.said.push_all(&bytes[..taken]).is_err() {
            self.memory_refusals = self.memory_refusals.saturating_add(1);
            return Err(CallError::NoMemory);
        }
        if fails {
            self.say_faults = self.say_faults.saturating_add(1);
            return Err(CallError::Failed);
        }
        Ok(())
    }

    fn complain(&mut self, bytes: &[u8]) -> Result<(), CallError>
        ensures does { Complains result bytes.now (talk_state self.old) (talk_state self.new) }
        ensures exact { IsErrOf result CallError.Failed → is_failing self.old.failing (next_count self.old.calls) ≡ true }
        ensures due { is_failing self.old.failing (next_count self.old.calls) ≡ true → IsErr result }
        ensures calls { self.new.calls ≡ next_count self.old.calls }
        ensures failing { self.new.failing ≡ self.old.failing }
        ensures kept { IsErrOf result CallError.NoMemory → self.new.complained ≡ self.old.complained }
        ensures half { IsErrOf result CallError.Failed → self.new.complained ≡ self.old.complained ++ take (length bytes.now / 2) bytes.now }
    {
        self.calls = self.calls.saturating_add(1);
        let fails = is_failing(self.failing.as_slice(), self.calls);
        let taken = if fails { bytes.len() / 2 } else { bytes.len() };
        if self.complained.push_all(&bytes[..taken]).is_err() {
            self.memory_refusals = self.memory_refusals.saturating_add(1);
            return Err(CallError::NoMemory);
        }
        if fails {
            self.complain_faults = self.complain_faults.saturating_add(1);
            return Err(CallError::Failed);
        }
        Ok(())
    }
}

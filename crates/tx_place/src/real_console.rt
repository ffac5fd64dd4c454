// The standard streams: the trusted edge. It does not tell what it was told.
ghost use Rattle.std.specs.Prelude.{◌≡◌, OnOk};
ghost use Rattle.std.specs.Io.KnownBytes as known;
ghost use Rattle.tx_place.specs.Console.{Says, Complains};
ghost use Rattle.tx_place.specs.Real.{silent_console};

use crate::{CallError, Console};
use std::io::Write;

/// A stream for what is said, and one for complaints.
#[derive(Drop)]
pub struct RealConsole<O: Write + Drop, E: Write + Drop> {
    out: O,
    err: E,
    say_faults: u64,
    complain_faults: u64,
}

impl<O: Write + Drop, E: Write + Drop> RealConsole<O, E> {
    /// Both counts of faults are at 0.
    pub fn new(out: O, err: E) -> Self
        ensures says { result.say_faults ≡ 0 }
        ensures complains { result.complain_faults ≡ 0 }
        ensures out { result.out ≡ out }
        ensures err { result.err ≡ err }
    {
        RealConsole {
            out,
            err,
            say_faults: 0,
            complain_faults: 0,
        }
    }
}

impl<O: Write + Drop, E: Write + Drop> Console for RealConsole<O, E> {
    ghost state = { λ c. silent_console c.say_faults c.complain_faults };

    fn say(&mut self, bytes: &[u8]) -> Result<(), CallError>
        ensures does { Says result bytes.now
            (silent_console self.old.say_faults self.old.complain_faults)
            (silent_console self.new.say_faults self.new.complain_faults) }
        ensures written { OnOk result (known.Appends (O.contents self.old.out) (O.contents self.new.out) bytes.now) }
        ensures kept { self.new.err ≡ self.old.err }
    {
        match self.out.write_all(bytes) {
            Ok(()) => Ok(()),
            Err(_) => {
                self.say_faults = self.say_faults.saturating_add(1);
                Err(CallError::Failed)
            }
        }
    }

    fn complain(&mut self, bytes: &[u8]) -> Result<(), CallError>
        ensures does { Complains result bytes.now
            (silent_console self.old.say_faults self.old.complain_faults)
            (silent_console self.new.say_faults self.new.complain_faults) }
        ensures written { OnOk result (known.Appends (E.contents self.old.err) (E.contents self.new.err) bytes.now) }
        ensures kept { self.new.out ≡ self.old.out }
    {
        match self.err.write_all(bytes) {
            Ok(()) => Ok(()),
            Err(_) => {
                self.complain_faults = self.complain_faults.saturating_add(1);
                Err(CallError::Failed)
            }
        }
    }
}

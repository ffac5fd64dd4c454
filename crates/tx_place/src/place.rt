// A place holds files by name.
ghost use Rattle.std.specs.Prelude.{◌≡◌, Some};
ghost use Rattle.std.specs.Str.{chars};
ghost use Rattle.tx_place.specs.Place.{PlaceState, ReadsAt, Creates, Appends};

use thiserror::Error;
use tx_text::NoMemory;

/// Why a call on a place or a console was refused.
#[derive(Clone, Copy, Debug, PartialEq, Eq, Error)]
pub enum CallError {
    #[error("failed")]
    Failed,
    #[error("out of memory")]
    NoMemory,
}

impl From<NoMemory> for CallError {
    ghost use Rattle.tx_place.specs.declared.place.CallError.TheVariants as call_error;

    ghost from_gives = { λ _ e. e ≡ call_error.NoMemory };

    fn from(_: NoMemory) -> Self {
        CallError::NoMemory
    }
}

/// Files by name. `specs/Place.antt` says all that each call does, to what is held, to the counts of faults, to the
/// name of the last call that failed and to the open file.
pub trait Place {
    ghost state: { Self → PlaceState };

    /// Writes some of the file's bytes from `at` to the front of `into`, and gives their number: 0 exactly where `into`
    /// is empty or `at` is at or past the end. An absent name fails.
    fn read_at(&mut self, name: &str, at: u64, into: &mut [u8]) -> Result<usize, CallError>
        ensures does { ReadsAt result (chars name.now) at into.old into.new (state self.old) (state self.new) };

    /// Makes the file empty and opens it. After a refusal it is as before or empty, and no file is open.
    fn create(&mut self, name: &str) -> Result<(), CallError>
        ensures does { Creates result (chars name.now) (state self.old) (state self.new) };

    /// Adds the bytes at the end of the open file. After a refusal a prefix of them was added.
    fn append(&mut self, name: &str, bytes: &[u8]) -> Result<(), CallError>
        requires { (state self.old).open_file ≡ Some (chars name.now) }
        ensures does { Appends result (chars name.now) bytes.now (state self.old) (state self.new) };
}

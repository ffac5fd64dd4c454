// Reading a whole file.
ghost use Rattle.std.specs.Prelude.{◌≡◌, ◌⊎◌, ◌≤◌, ◌<◌, length, true, Some, IfOk, IsErrOf};
ghost use Rattle.std.specs.Str.{chars};
ghost use Rattle.tx_place.specs.Count.{Rose};
ghost use Rattle.tx_place.specs.Place.{KeepsTelling};
ghost use Rattle.tx_place.specs.Whole.{IsLarger};

use crate::{CallError, Place};
use std::alloc::Global;
use thiserror::Error;
use tx_text::{Bytes, NoMemory};

/// How many bytes one read asks for.
const PIECE: usize = 65_536;

/// Why a file was not read.
#[derive(Clone, Copy, Debug, PartialEq, Eq, Error)]
pub enum ReadError {
    #[error("read failed")]
    Fault,
    #[error("too large")]
    TooLarge,
    #[error("out of memory")]
    NoMemory,
}

impl From<NoMemory> for ReadError {
    ghost use Rattle.tx_place.specs.declared.whole.ReadError.TheVariants as read_error;

    ghost from_gives = { λ _ e. e ≡ read_error.NoMemory };

    fn from(_: NoMemory) -> Self {
        ReadError::NoMemory
    }
}

/// All the bytes of a file that has at most `limit`.
pub fn read_all<P: Place>(
    alloc: Global,
    place: &mut P,
    name: &str,
    limit: u64,
) -> Result<Bytes, ReadError>
    ensures telling { KeepsTelling (P.state place.old) (P.state place.new) }
    ensures writes { (P.state place.new).write_faults ≡ (P.state place.old).write_faults }
    ensures open_file { (P.state place.new).open_file ≡ (P.state place.old).open_file }
    ensures held { (P.state place.old).tells ≡ true → (P.state place.new).held ≡ (P.state place.old).held }
    ensures counts { (P.state place.old).read_faults ≤ (P.state place.new).read_faults }
    ensures still { (IsErrOf result ReadError.Fault → ⊥) → (P.state place.new).read_faults ≡ (P.state place.old).read_faults }
    ensures kept { (IsErrOf result ReadError.Fault → ⊥) → (P.state place.old).names_faults ≡ true
        → (P.state place.new).failed ≡ (P.state place.old).failed }
    ensures within { IfOk result (λ bytes. length bytes ≤ limit) }
    ensures bytes { (P.state place.old).tells ≡ true
        → IfOk result (λ bytes. (P.state place.old).held (chars name.now) ≡ Some bytes) }
    ensures fault { IsErrOf result ReadError.Fault → Rose (P.state place.old).read_faults (P.state place.new).read_faults }
    ensures named { IsErrOf result ReadError.Fault → (P.state place.old).names_faults ≡ true
        → (P.state place.new).failed ≡ Some (chars name.now) }
    ensures too_large { (P.state place.old).tells ≡ true → IsErrOf result ReadError.TooLarge
        → IsLarger limit ((P.state place.old).held (chars name.now)) }
{
    let mut all = Bytes::new(alloc);
    let mut piece = [0u8; PIECE];
    loop {
        let taken = match place.read_at(name, all.len() as u64, &mut piece) {
            Ok(taken) => taken,
            Err(CallError::Failed) => return Err(ReadError::Fault),
            Err(CallError::NoMemory) => return Err(ReadError::NoMemory),
        };
        if taken == 0 {
            return Ok(all);
        }
        if taken as u64 > limit - all.len() as u64 {
            return Err(ReadError::TooLarge);
        }
        all.push_all(&piece[..taken])?;
    }
}

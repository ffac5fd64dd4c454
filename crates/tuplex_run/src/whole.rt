// One file that is read whole.
ghost use Rattle.std.specs.Prelude.{◌≡◌, ◌≤◌, ◌∷◌, [], true, IfOk, IfErr, IfSome, OnOk, Contains, length};
ghost use Rattle.tuplex_run.specs.Ends.{FailedAmong};
ghost use Rattle.tuplex_run.specs.Calls.Refusals.{OnlyRead, NoReadFailed, IsRead, ReadRefusal};

use crate::Outcome;
use std::alloc::Global;
use tx_place::{Place, ReadError, read_all};
use tx_text::{Bytes, PyText};

/// The bytes of a file, or none where it is too large.
pub(crate) fn read_named<P: Place>(
    alloc: Global,
    place: &mut P,
    name: &PyText,
    limit: u64,
) -> Result<Option<Bytes>, Outcome>
    ensures only { OnlyRead (P.state place.old) (P.state place.new) }
    ensures still { OnOk result (NoReadFailed (P.state place.old) (P.state place.new)) }
    ensures bytes { (P.state place.old).tells ≡ true
        → IfOk result (IsRead limit ((P.state place.old).held name.now)) }
    ensures within { IfOk result (λ bytes. IfSome bytes (λ b. length b ≤ limit)) }
    ensures refused { IfErr result (ReadRefusal name.now (P.state place.old) (P.state place.new)) }
    ensures named { (P.state place.old).names_faults ≡ true
        → FailedAmong (Contains (name.now ∷ [])) (P.state place.old) (P.state place.new) }
{
    match read_all(alloc, place, name.as_str(), limit) {
        Ok(bytes) => Ok(Some(bytes)),
        Err(ReadError::TooLarge) => Ok(None),
        Err(ReadError::NoMemory) => Err(Outcome::NoMemory),
        Err(ReadError::Fault) => match PyText::from_str(alloc, name.as_str()) {
            Ok(name) => Err(Outcome::ReadFault { name }),
            Err(_) => Err(Outcome::NoMemory),
        },
    }
}

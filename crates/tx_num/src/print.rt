// Integers printed.
ghost use Rattle.std.specs.Prelude.{◌≡◌, IfOk};
ghost use Rattle.std.specs.Fmt.{signed_decimal};
ghost use Rattle.tx_num.specs.Laws.{PrintedLaw};

use itoa::Buffer;
use std::alloc::Global;
use tx_text::{NoMemory, PyText};

/// The decimal text of an integer, as Python's `str`: of -7 it is `"-7"`.
#[tactic(auto, using(crate::proofs::Plain::printed_text))]
pub fn print_int(alloc: Global, a: i128) -> Result<PyText, NoMemory>
    ensures { IfOk result (λ t. t ≡ signed_decimal a) }
{
    PyText::from_str(alloc, Buffer::new().format(a))
}

/// The text that an integer of 128 bits is printed as is read as that integer.
pub fn printed_ints_read_back()
    ensures { PrintedLaw }
{}

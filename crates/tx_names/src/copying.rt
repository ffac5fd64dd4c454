// Copies of functions and of texts.
ghost use Rattle.std.specs.Prelude.{◌≡◌, IfOk};
ghost use Rattle.tx_names.specs.Bind.{function_of};

use crate::Bound;
use tx_text::{NoMemory, PyText};

/// The same function. Its code is shared.
pub fn copy(f: &Bound) -> Result<Bound, NoMemory>
    ensures { IfOk result (λ c. function_of c ≡ function_of f.now) }
{
    let routine = f.routine().clone()?;
    let columns = f.shared_columns().clone()?;
    Ok(Bound::new(routine, columns))
}

pub(crate) fn copy_text(text: &PyText) -> Result<PyText, NoMemory>
    ensures { IfOk result (λ c. c ≡ text.now) }
{
    text.slice(0, text.len())
}

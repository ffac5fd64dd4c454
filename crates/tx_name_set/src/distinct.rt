// Whether names are distinct.
ghost use Rattle.std.specs.Prelude.{◌≡◌, IfOk};
ghost use Rattle.tx_tree.specs.Form.{distinct};

use crate::name_set::Names;
use std::alloc::Global;
use tx_text::{NoMemory, PyText};

/// Whether no name stands twice, in time that grows as their number does.
pub fn are_distinct(alloc: Global, names: &[PyText]) -> Result<bool, NoMemory>
    ensures { IfOk result (λ yes. yes ≡ distinct names.now) }
{
    let mut met = Names::new(alloc);
    for name in names {
        let is_new = met.add(name)?;
        if !is_new {
            return Ok(false);
        }
    }
    Ok(true)
}

// What holds of the definitions alone.
ghost use Rattle.tuplex_run.specs.Laws.{OneVerdictLaw};

use tx_script::blocks_are_read_once;

/// There is one verdict on the words and the files, and no other.
pub fn verdicts_are_one()
    ensures { OneVerdictLaw }
{
    blocks_are_read_once();
}

// Laws of the definitions, each the contract of a function that does nothing.
ghost use Rattle.tx_plain.specs.Laws.{RowByRowLaw, RunLaw};

/// Taking each row through a run of operators, one row after the other, and ordering the entries by operator and then by row
/// gives the lists of operator after operator, and evaluates as many functions.
pub fn rows_go_one_by_one()
    ensures { RowByRowLaw }
{}

/// In a pipe a run of operators gives what they give one after the other.
pub fn runs_are_lists()
    ensures { RunLaw }
{}

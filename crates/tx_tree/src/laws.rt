// Laws of the definitions, each the contract of a function that does nothing.
ghost use Rattle.tx_tree.specs.Laws.{SpellingLaw, LinesLaw};

/// The spelling of an example of each node, beside the production of the Python Language Reference that it comes from.
pub fn spelling_is_the_grammar()
    ensures { SpellingLaw }
{}

/// The spelling, the depth and well-formedness of a block are those of the block whose lines are all 0.
pub fn lines_are_left_out()
    ensures { LinesLaw }
{}

// Laws of the definitions, each the contract of a function that does nothing.
ghost use Rattle.tx_parse.specs.Laws.{SpellingLaw, OneTreeLaw, OneBlockLaw, InProfileLaw, CoverLaw, LinesLaw};

use tx_tree::lines_are_left_out;

/// The spelling with lines is the spelling: what a tree spells with its lines is its spelling, and each spelling is that
/// of a tree with lines.
pub fn spellings_agree()
    ensures { SpellingLaw }
{}

/// Two well-formed trees with one spelling are equal but for their lines.
pub fn spelling_tells_the_tree()
    ensures { OneTreeLaw }
{
    lines_are_left_out();
}

/// The same tokens are one block.
pub fn tokens_tell_the_block()
    ensures { OneBlockLaw }
{}

/// No block has a keyword outside the language.
pub fn blocks_are_in_profile()
    ensures { InProfileLaw }
{}

/// Blocks cover the tokens.
pub fn blocks_cover_the_tokens()
    ensures { CoverLaw }
{}

/// Each block but the first begins at the first token of a line in column 0, and no other token of a block does.
pub fn blocks_begin_at_lines()
    ensures { LinesLaw }
{}

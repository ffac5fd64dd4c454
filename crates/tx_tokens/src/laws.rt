// Laws above the definitions: functions without a body, whose contracts say them.
ghost use Rattle.tx_tokens.specs.Laws.{BalanceLaw, GapsLaw, OrderLaw, SpansLaw, SpellingLaw};

/// What a text gives comes in the order of its places, so that the first fault in the list is the first by place.
pub fn events_are_in_order()
    ensures { OrderLaw }
{}

/// The spans of the tokens of a text rise and do not overlap.
pub fn spans_rise()
    ensures { SpansLaw }
{}

/// Each Dedent ends what an Indent began, and at the end of the tokens none is left open.
pub fn layout_is_balanced()
    ensures { BalanceLaw }
{}

/// What stands in the span of a token writes it: a name and a mark are themselves, an integer is its digits, a text
/// stands between its quotes. Newline, Indent and Dedent have an empty span.
pub fn tokens_are_spelled()
    ensures { SpellingLaw }
{}

/// Ahead of the first token, between two, and behind the last one stand only blanks, comments and line ends; a mark that
/// is dropped at the front is not looked at.
pub fn gaps_hold_no_token()
    ensures { GapsLaw }
{}

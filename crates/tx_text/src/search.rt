// Where a part stands in a text. An occurrence by bytes of one UTF-8 text in another is one by code points.
ghost use Rattle.std.specs.Prelude.{◌≡◌, ◌≢◌, ◌<◌, ◌+◌, [], IsTrue, IsAscii, IfSome, length};
ghost use Rattle.std.specs.Str.{chars};
ghost use Rattle.tx_text.specs.Text.{first_place, last_place, pieces, count_of};
ghost use Rattle.tx_text.specs.Laws.{CountLaw, IsFirstSplit, PlacesLaw};

use crate::points::char_count;

/// The text before the first place of a part, and the text behind the part there.
pub(crate) fn first_split<'a>(text: &'a str, part: &str) -> Option<(&'a str, &'a str)>
    requires { part.now ≢ [] }
    ensures none { result ≡ None → first_place (chars part.now) (chars text.entry.now) ≡ None }
    ensures some { IfSome result (λ p. IsFirstSplit (chars part.now) (chars text.entry.now) (chars p.0.now) (chars p.1.now)) }
    ensures shorter { IfSome result (λ p. length p.1.now < length text.entry.now) }
{
    text.split_once(part)
}

/// How many characters the front of a text has; `single` says that each character of the text is one byte.
fn place_behind(front: &str, single: bool) -> usize
    requires { IsTrue single → IsAscii front.now }
    ensures { result ≡ length (chars front.now) }
{
    if single {
        return front.len();
    }
    char_count(front)
}

/// The first place of a part in a text with so many characters.
pub(crate) fn find_first(text: &str, count: usize, part: &str) -> Option<usize>
    requires { count ≡ length (chars text.now) }
    ensures { result ≡ first_place (chars part.now) (chars text.now) }
{
    let (front, _) = text.split_once(part)?;
    Some(place_behind(front, count == text.len()))
}

/// The last place of a part in a text with so many characters.
pub(crate) fn find_last(text: &str, count: usize, part: &str) -> Option<usize>
    requires { count ≡ length (chars text.now) }
    ensures { result ≡ last_place (chars part.now) (chars text.now) }
{
    let (front, _) = text.rsplit_once(part)?;
    Some(place_behind(front, count == text.len()))
}

//// How often a part stands in a text without overlaps.
pub(crate) fn occurrences(text: &str, part: &str) -> usize
    requires { part.now ≢ [] }
    ensures { length (pieces (chars part.now) (chars text.now)) ≡ result + 1 }
{
    let mut found = 0;
    let mut rest = text;
    'places: while let Some((_, behind)) = first_split(rest, part) {
        rest = behind;
        found += 1;
    }
    found
}

/// How often a part stands without overlaps in a text with so many characters: an empty one before each and at the end.
pub(crate) fn count_parts(text: &str, count: usize, part: &str) -> usize
    requires { count ≡ length (chars text.now) }
    ensures { result ≡ count_of (chars part.now) (chars text.now) }
{
    if part.is_empty() {
        return count + 1;
    }
    occurrences(text, part)
}

/// The place that a search answers is the least one where the part stands, and from the right the greatest.
pub fn places_are_least_and_greatest()
    ensures { PlacesLaw }
{}

/// A part stands once less often than there are pieces around it, and the empty part before each character and at the
/// end.
pub fn counts_are_of_pieces()
    ensures { CountLaw }
{}

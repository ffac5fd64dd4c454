// Characters of a text by their places. Where a text has as many bytes as characters each is one byte, and a place is
// an index.
ghost use Rattle.std.specs.Prelude.{◌≡◌, ◌≤◌, ◌<◌, ◌-◌, ◌∷◌, [], IfSome, MatchOption, length, slice_get, take, drop};
ghost use Rattle.std.specs.Str.{chars};
ghost use Rattle.std.specs.List.{count_by};
ghost use Rattle.tx_text.specs.Text.{part_of, less};
ghost use Rattle.tx_text.specs.Calls.Store.{is_first_byte};

// How many bytes begin a character: all but those that continue one.
fn first_bytes(bytes: &[u8]) -> usize
    ensures { result ≡ count_by is_first_byte bytes.now }
{
    let mut count = 0;
    for byte in bytes {
        if is_first_byte(*byte) {
            count += 1;
        }
    }
    count
}

// Whether a byte of UTF-8 is the first of a character.
fn is_first_byte(byte: u8) -> bool
    ensures { result ≡ is_first_byte byte }
{
    byte < 0x80 || byte >= 0xC0
}

/// How many characters a text has. They are not decoded, so that it takes no time where they differ in length.
pub(crate) fn char_count(text: &str) -> usize
    ensures { result ≡ length (chars text.now) }
{
    if text.is_ascii() {
        return text.len();
    }
    first_bytes(text.as_bytes())
}

/// The character at a place of a text with so many characters: at once where each is one byte.
pub(crate) fn char_at(text: &str, count: usize, at: usize) -> Option<char>
    requires { count ≡ length (chars text.now) }
    ensures { result ≡ slice_get (chars text.now) at }
{
    if count < text.len() {
        return text.chars().nth(at);
    }
    let byte = text.as_bytes().get(at)?;
    Some(char::from(*byte))
}

/// The first character of a text, and what follows it: of `"aß"` it is `'a'`, before `"ß"`. So a text is gone through by
/// code points without an iterator to hold.
pub fn first_char(text: &str) -> Option<(char, &str)>
    ensures value { MatchOption result (chars text.now ≡ []) (λ p. chars text.now ≡ p.0 ∷ chars p.1.now) }
    ensures shorter { IfSome result (λ p. length p.1.now < length text.now) }
{
    let mut rest = text.chars();
    match rest.next() {
        None => None,
        Some(c) => Some((c, rest.as_str())),
    }
}

/// The text behind so many characters.
fn skip_chars(text: &str, count: usize) -> &str
    ensures { chars result.now ≡ drop count (chars text.now) }
{
    let mut rest = text;
    for _step in 0..count {
        match first_char(rest) {
            None => return rest,
            Some((_, more)) => rest = more,
        }
    }
    rest
}

/// So many characters from the front of a text.
fn take_chars(text: &str, count: usize) -> &str
    ensures { chars result.now ≡ take count (chars text.now) }
{
    let rest = skip_chars(text, count);
    &text[..text.len() - rest.len()]
}

/// The characters between two places of a text with so many characters: at once where each is one byte.
pub(crate) fn text_between(text: &str, count: usize, from: usize, to: usize) -> &str
    requires counted { count ≡ length (chars text.now) }
    requires ordered { from ≤ to }
    requires within { to ≤ count }
    ensures { chars result.now ≡ part_of from to (chars text.now) }
{
    if count < text.len() {
        return take_chars(skip_chars(text, from), to - from);
    }
    &text[from..to]
}

/// Whether a text comes before another: UTF-8 keeps the order of code points, so the bytes decide.
pub(crate) fn comes_before(a: &str, b: &str) -> bool
    ensures { result ≡ less (chars a.now) (chars b.now) }
{
    a < b
}

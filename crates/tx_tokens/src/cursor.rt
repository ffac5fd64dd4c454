// Texts from the front: the first character, the first line.
ghost use Rattle.std.specs.Prelude.{◌≡◌, ◌==◌, ◌∷◌, ◌++◌, ◌<◌, ◌+◌, [], None, length, IfSome, MatchOption};
ghost use Rattle.std.specs.Str.{NonePass, chars};
ghost use Rattle.tx_tokens.specs.Lines.{line_feed, lines};
ghost use Rattle.tx_tokens.specs.Calls.Walking.{fed};

/// The first character of a text, and what follows it.
pub(crate) fn first_char(text: &str) -> Option<(char, &str)>
    ensures value { MatchOption result (chars text.now ≡ []) (λ p. chars text.now ≡ p.0 ∷ chars p.1.now) }
    ensures shorter { IfSome result (λ p. length p.1.now < length text.now) }
{
    let mut rest = text.chars();
    match rest.next() {
        None => None,
        Some(c) => Some((c, rest.as_str())),
    }
}

/// What stands before the first place of a character of one byte, and what follows it there.
pub(crate) fn split_at_first(text: &str, mark: char) -> Option<(&str, &str)>
    requires { mark < 128 }
    ensures none { result ≡ None → NonePass (λ c. c == mark) (chars text.entry.now) }
    ensures some { IfSome result (λ p. chars text.entry.now ≡ chars p.0.now ++ mark ∷ chars p.1.now) }
    ensures before { IfSome result (λ p. NonePass (λ c. c == mark) (chars p.0.now)) }
{
    text.split_once(mark)
}

/// The content of a line that stands before its line feed, and how many characters end it.
fn fed(line: &str) -> (&str, usize)
    ensures { fed (chars line.entry.now) ≡ record { content = chars result.0.now; ending = result.1 } }
{
    match line.strip_suffix('\r') {
        Some(content) => (content, 2),
        None => (line, 1),
    }
}

/// A line that no line feed ends, if anything stands there.
fn last_line(text: &str) -> Option<(&str, usize, &str)>
    requires { NonePass (λ c. c == line_feed) (chars text.now) }
    ensures value { MatchOption result (chars text.now ≡ []) (λ p. lines (chars text.now) ≡ (record { content = chars p.0.now; ending = p.1 }) ∷ lines (chars p.2.now)) }
    ensures sizes { IfSome result (λ p. length (chars text.now) ≡ length (chars p.0.now) + p.1 + length (chars p.2.now)) }
    ensures some { IfSome result (λ p. 0 < length (chars p.0.now) + p.1) }
{
    first_char(text)?;
    Some((text, 0, ""))
}

/// The content of the first line of a text, how many characters end it, and what follows.
pub(crate) fn first_line(text: &str) -> Option<(&str, usize, &str)>
    ensures value { MatchOption result (chars text.now ≡ []) (λ p. lines (chars text.now) ≡ (record { content = chars p.0.now; ending = p.1 }) ∷ lines (chars p.2.now)) }
    ensures sizes { IfSome result (λ p. length (chars text.now) ≡ length (chars p.0.now) + p.1 + length (chars p.2.now)) }
    ensures some { IfSome result (λ p. 0 < length (chars p.0.now) + p.1) }
{
    let Some((line, behind)) = split_at_first(text, '\n') else {
        return last_line(text);
    };
    let (content, ending) = fed(line);
    Some((content, ending, behind))
}

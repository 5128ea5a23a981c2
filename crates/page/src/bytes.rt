// Words, numbers and digits at a place of the bytes.
ghost use Rattle.std.specs.Prelude.{◌≡◌, ◌≤◌};
ghost use Rattle.page.specs.Parsers.{rest, strip, number, number_on, digits};
ghost use Rattle.page.specs.Places.{left_from, got_value, got_digits};

use crate::Span;

// The bytes from `at` on.
fn rest(s: &[u8], at: usize) -> &[u8]
    ensures { result.now ≡ rest s.now at }
{
    &s[at.min(s.len())..]
}

// The place after the word, where it stands at `at`.
pub fn word_at(s: &[u8], at: usize, word: &[u8]) -> Option<usize>
    ensures { left_from s.now result ≡ strip word.now (rest s.now at) }
{
    if rest(s, at).starts_with(word) {
        Some(at + word.len())
    } else {
        None
    }
}

// The rest of a number that stood at `from`, up to the byte `stop`: the number and the place after that byte.
fn number_on(s: &[u8], at: usize, stop: u8, from: usize) -> Option<(usize, usize)>
    requires { from ≤ 2147483647 }
    ensures { got_value s.now result ≡ number_on stop from (rest s.now at) }
{
    let left = rest(s, at);
    let mut v = from;
    for (i, b) in left.iter().enumerate() {
        if *b == stop {
            return Some((v, at + i + 1));
        }
        if !b.is_ascii_digit() {
            return None;
        }
        let leading = v == 0;
        if leading {
            return None;
        }
        v = v * 10 + usize::from(*b - b'0');
        let large = 2147483647 < v;
        if large {
            return None;
        }
    }
    None
}

// A number without leading zeros, at most 2147483647, and the place after the byte `stop` that follows it.
pub fn number_at(s: &[u8], at: usize, stop: u8) -> Option<(usize, usize)>
    ensures { got_value s.now result ≡ number stop (rest s.now at) }
{
    let b = *s.get(at)?;
    if b.is_ascii_digit() {
        number_on(s, at + 1, stop, usize::from(b - b'0'))
    } else {
        None
    }
}

// One digit or more, and the place after the byte `stop` that follows them.
pub fn digits_at(s: &[u8], at: usize, stop: u8) -> Option<(Span, usize)>
    ensures { got_digits s.now result ≡ digits stop (rest s.now at) }
{
    if !s.get(at)?.is_ascii_digit() {
        return None;
    }
    let left = rest(s, at + 1);
    for (i, b) in left.iter().enumerate() {
        let p = at + 1 + i;
        if *b == stop {
            return Some((Span { from: at, to: p }, p + 1));
        }
        if !b.is_ascii_digit() {
            return None;
        }
    }
    None
}

// One line of a page at a place of the bytes: the size, a row, a clue, a call.
ghost use Rattle.std.specs.Prelude.{◌≡◌};
ghost use Rattle.page.specs.Parsers.{rest};
ghost use Rattle.page.specs.Grammar.{size, row, clue, side, decide_call, call};
ghost use Rattle.page.specs.Places.{got_value, got_digits};

use crate::bytes::{digits_at, number_at, word_at};
use crate::{Clue, Span};
use rules::{Call, Literal, Side};

// `(size h w)`: the height and the width.
pub fn size_at(s: &[u8], at: usize) -> Option<((usize, usize), usize)>
    ensures { got_value s.now result ≡ size (rest s.now at) }
{
    let a = word_at(s, at, b"(size ")?;
    let (h, b) = number_at(s, a, b' ')?;
    let (w, c) = number_at(s, b, b')')?;
    let next = word_at(s, c, b"\n")?;
    Some(((h, w), next))
}

// `(row digits)`
pub fn row_at(s: &[u8], at: usize) -> Option<(Span, usize)>
    ensures { got_digits s.now result ≡ row (rest s.now at) }
{
    let a = word_at(s, at, b"(row ")?;
    let (digits, b) = digits_at(s, a, b')')?;
    let next = word_at(s, b, b"\n")?;
    Some((digits, next))
}

// `(clue y x n)`
pub fn clue_at(s: &[u8], at: usize) -> Option<(Clue, usize)>
    ensures { got_value s.now result ≡ clue (rest s.now at) }
{
    let a = word_at(s, at, b"(clue ")?;
    let (y, b) = number_at(s, a, b' ')?;
    let (x, c) = number_at(s, b, b' ')?;
    let (n, d) = number_at(s, c, b')')?;
    let next = word_at(s, d, b"\n")?;
    Some((Clue { y, x, n }, next))
}

// The side of a decide, to the end of its line.
fn side_at(s: &[u8], at: usize) -> Option<(Side, usize)>
    ensures { got_value s.now result ≡ side (rest s.now at) }
{
    if let Some(next) = word_at(s, at, b"1)\n") {
        return Some((Side::Wall, next));
    }
    let next = word_at(s, at, b"0)\n")?;
    Some((Side::Open, next))
}

// `(decide b s)`
fn decide_at(s: &[u8], at: usize) -> Option<(Call, usize)>
    ensures { got_value s.now result ≡ decide_call (rest s.now at) }
{
    let a = word_at(s, at, b"(decide ")?;
    let (border, b) = number_at(s, a, b' ')?;
    let (side, next) = side_at(s, b)?;
    Some((Call::Decide(Literal { border, side }), next))
}

// A call's line: `(undo)`, `(check)` or a decide.
pub fn call_at(s: &[u8], at: usize) -> Option<(Call, usize)>
    ensures { got_value s.now result ≡ call (rest s.now at) }
{
    if let Some(next) = word_at(s, at, b"(undo)\n") {
        return Some((Call::Undo, next));
    }
    if let Some(next) = word_at(s, at, b"(check)\n") {
        return Some((Call::Check, next));
    }
    decide_at(s, at)
}

// Whether a well formed page makes a board: its size, its rows, its colours. A clue of any size does.
ghost use Rattle.std.specs.Prelude.{◌≡◌};
ghost use Rattle.lists.specs.Lists.{all};
ghost use Rattle.page.specs.Grammar.{row};
ghost use Rattle.page.specs.Places.{all_from, digit_at, digits_in, sheet_at, judged_of};
ghost use Rattle.page.specs.Judge.{rows_fit, low, two_colours, judge_sheet};

use crate::{Parts, Span, Unfit, lines};

// The value of the digit at a place.
pub fn digit_at(s: &[u8], at: usize) -> u8
    ensures { result ≡ digit_at s.now at }
{
    match s.get(at) {
        Some(b) => b.saturating_sub(b'0'),
        None => 0,
    }
}

// Whether there are h rows from `at` on, each of w digits.
fn rows_fit(s: &[u8], at: usize, h: usize, w: usize) -> bool
    ensures { result ≡ rows_fit h w (all_from row s.now at) }
{
    let mut left = h;
    let mut p = at;
    while let Some((digits, next)) = lines::row_at(s, p) {
        if left == 0 || digits.to.saturating_sub(digits.from) != w {
            return false;
        }
        left -= 1;
        p = next;
    }
    left == 0
}

// Whether the digits from one place up to another are 0 or 1.
fn digits_low(s: &[u8], digits: Span) -> bool
    ensures { result ≡ all low (digits_in s.now digits.from digits.to) }
{
    for p in digits.from..digits.to {
        if 1 < digit_at(s, p) {
            return false;
        }
    }
    true
}

// Whether every digit of the rows from `at` on is 0 or 1.
fn two_colours(s: &[u8], at: usize) -> bool
    ensures { result ≡ two_colours (all_from row s.now at) }
{
    let mut p = at;
    while let Some((digits, next)) = lines::row_at(s, p) {
        if !digits_low(s, digits) {
            return false;
        }
        p = next;
    }
    true
}

// The judgement of a well formed page: why it is refused, or accepted.
pub fn judge_parts(s: &[u8], p: Parts) -> Result<Parts, Unfit>
    ensures { judged_of s.now result ≡ judge_sheet (sheet_at s.now p) }
{
    if !board::size_right(p.height, p.width) {
        return Err(Unfit::Size);
    }
    if !rows_fit(s, p.rows, p.height, p.width) {
        return Err(Unfit::Ragged);
    }
    if !two_colours(s, p.rows) {
        return Err(Unfit::Colour);
    }
    Ok(p)
}

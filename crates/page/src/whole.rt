// The whole page, judged for form: one pass over the bytes. Then each clue's cell is looked for among the later clues,
// which reads a clue's line again at most some ten million times for a page of 65,536 bytes.
ghost use Rattle.std.specs.Prelude.{◌≡◌};
ghost use Rattle.lists.specs.Lists.{any};
ghost use Rattle.page.specs.Parsers.{rest};
ghost use Rattle.page.specs.Grammar.{clue, on_page, same_cell, clues_fit, page_of};
ghost use Rattle.page.specs.Places.{left_from, all_from, after_line, end_of, form_of};

use crate::bytes::word_at;
use crate::{Clue, Line, Parts, lines};

// The place after the line at `at`, if a line of that kind stands there.
fn line_end(s: &[u8], at: usize, line: Line) -> Option<usize>
    ensures { left_from s.now result ≡ after_line line (rest s.now at) }
{
    match line {
        Line::Row => Some(lines::row_at(s, at)?.1),
        Line::Clue => Some(lines::clue_at(s, at)?.1),
        Line::Call => Some(lines::call_at(s, at)?.1),
    }
}

// The place after the lines of that kind from `at` on.
fn lines_end(s: &[u8], at: usize, line: Line) -> usize
    ensures { rest s.now result ≡ end_of line s.now at }
{
    let mut p = at;
    while let Some(next) = line_end(s, p, line) {
        p = next;
    }
    p
}

// Whether two clues name one cell.
fn same_cell(c: Clue, d: Clue) -> bool
    ensures { result ≡ same_cell c d }
{
    c.y == d.y && c.x == d.x
}

// Whether a clue is on the page of h rows and w columns.
fn on_page(c: Clue, h: usize, w: usize) -> bool
    ensures { result ≡ on_page h w c }
{
    c.y < h && c.x < w
}

// Whether one of the clues from `at` on names the cell of c.
fn clue_again(s: &[u8], at: usize, c: Clue) -> bool
    ensures { result ≡ any (same_cell c) (all_from clue s.now at) }
{
    let mut p = at;
    while let Some((d, next)) = lines::clue_at(s, p) {
        if same_cell(c, d) {
            return true;
        }
        p = next;
    }
    false
}

// Whether the clues from `at` on are on the page, and none is given twice.
fn clues_fit(s: &[u8], at: usize, h: usize, w: usize) -> bool
    ensures { result ≡ clues_fit h w (all_from clue s.now at) }
{
    let mut p = at;
    while let Some((c, next)) = lines::clue_at(s, p) {
        if !on_page(c, h, w) || clue_again(s, next, c) {
            return false;
        }
        p = next;
    }
    true
}

// The parts of a page, if the bytes are well formed.
pub fn form_of(s: &[u8]) -> Option<Parts>
    ensures { form_of s.now result ≡ page_of s.now }
{
    if 65536 < s.len() {
        return None;
    }
    let a = word_at(s, 0, b"(page\n")?;
    let ((height, width), rows) = lines::size_at(s, a)?;
    let clues = lines_end(s, rows, Line::Row);
    let calls = lines_end(s, clues, Line::Clue);
    let end = lines_end(s, calls, Line::Call);
    let last = word_at(s, end, b")\n")?;
    if last < s.len() || !clues_fit(s, clues, height, width) {
        return None;
    }
    Some(Parts {
        height,
        width,
        rows,
        clues,
        calls,
    })
}

// A page's bytes: read, judged and turned into a puzzle and calls. Every parser takes the lent bytes and a place, and
// answers with a value and the place after it, or with none; nothing is copied, so that calls are read one by one.
#![tactic(auto)]

ghost use Rattle.std.specs.Prelude.{◌≡◌};
ghost use Rattle.page.specs.Judge.{judgement_of, colour_array, clue_array};
ghost use Rattle.page.specs.Places.{sheet_at, judged_of, unfit_number};

use board::Board;

mod bytes; // bytes.rt: words, numbers and digits
mod lines; // lines.rt: one line of a page
mod whole; // whole.rt: the whole page, judged for form
mod fitness; // fitness.rt: whether the page makes a board
mod filling; // filling.rt: its colours and clues as arrays

// The call at a place, and the place of the next. The calls of a page begin at its parts' place `calls`.
pub use lines::call_at;

// The digits of a row stand from the first place up to the second.
#[derive(Clone, Copy)]
pub struct Span {
    pub from: usize,
    pub to: usize,
}

// A clue's cell and number.
#[derive(Clone, Copy)]
pub struct Clue {
    pub y: usize,
    pub x: usize,
    pub n: usize,
}

// What the lines of a part of a page are. A closure that reads a line would need its parser as a ghost value, and the
// three parsers give values of three types.
#[derive(Clone, Copy)]
pub enum Line {
    Row,
    Clue,
    Call,
}

// The size, and the places where the rows, the clues and the calls begin.
#[derive(Clone, Copy)]
pub struct Parts {
    pub height: usize,
    pub width: usize,
    pub rows: usize,
    pub clues: usize,
    pub calls: usize,
}

// Why a page is refused, as 01 numbers it: not well formed, its size, its rows, its colours.
#[derive(Clone, Copy, PartialEq, Eq)]
pub enum Unfit {
    Form = 10,
    Size = 1,
    Ragged = 2,
    Colour = 3,
}

impl Unfit {
    // 01's number of the refusal.
    pub fn number(self) -> usize
        ensures { result ≡ unfit_number self }
    {
        self as usize
    }
}

// The judgement of a page's bytes: 10, 1, 2, 3, in this order, or accepted with its parts.
pub fn judge(s: &[u8]) -> Result<Parts, Unfit>
    ensures { judged_of s.now result ≡ judgement_of s.now }
{
    let p = whole::form_of(s).ok_or(Unfit::Form)?;
    fitness::judge_parts(s, p)
}

// The colours of a page whose parts are p, row by row, then 0.
pub fn colours(s: &[u8], p: Parts) -> [u8; Board::CELL_LIMIT]
    ensures { result ≡ colour_array (sheet_at s.now p).rows }
{
    filling::colours(s, p.rows)
}

// The clues of a page whose parts are p, row by row, -1 where there is none.
pub fn clues(s: &[u8], p: Parts) -> [i32; Board::CELL_LIMIT]
    ensures { result ≡ clue_array p.width (sheet_at s.now p).clues }
{
    if p.width <= Board::SIDE_LIMIT {
        filling::clues(s, p.clues, p.width)
    } else {
        [-1; Board::CELL_LIMIT]
    }
}

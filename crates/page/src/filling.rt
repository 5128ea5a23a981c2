// A page's colours and clues as arrays of 1,024 places.
ghost use Rattle.std.specs.Prelude.{◌≡◌, ◌≤◌, negsuc, replicate};
ghost use Rattle.page.specs.Grammar.{row, clue};
ghost use Rattle.page.specs.Places.{all_from, digits_in};
ghost use Rattle.page.specs.Judge.{colour_array, placed};
ghost use Rattle.page.specs.Filling.{Lays};

use crate::{Span, fitness, lines};
use board::Board;

// The colours laid so far, and the next place: there is no heap.
#[derive(Clone, Copy)]
pub struct Laid {
    pub cells: [u8; Board::CELL_LIMIT],
    pub count: usize,
}

impl Laid {
    // A row's digits, laid after those that were laid.
    fn with_digits(mut self, s: &[u8], digits: Span) -> Laid
        ensures { Lays self (digits_in s.now digits.from digits.to) result }
    {
        for p in digits.from..digits.to {
            if Board::CELL_LIMIT <= self.count {
                return self;
            }
            self.cells[self.count] = fitness::digit_at(s, p);
            self.count += 1;
        }
        self
    }
}

// The digits of the rows from `at` on, one row after the other, then 0.
pub fn colours(s: &[u8], at: usize) -> [u8; Board::CELL_LIMIT]
    ensures { result ≡ colour_array (all_from row s.now at) }
{
    let mut laid = Laid {
        cells: [0; Board::CELL_LIMIT],
        count: 0,
    };
    let mut p = at;
    while let Some((digits, next)) = lines::row_at(s, p) {
        laid = laid.with_digits(s, digits);
        p = next;
    }
    laid.cells
}

// The clues from `at` on, each at the place of its cell, and -1 elsewhere.
pub fn clues(s: &[u8], at: usize, w: usize) -> [i32; Board::CELL_LIMIT]
    requires { w ≤ 32 }
    ensures { result ≡ placed w (replicate 1024 (negsuc 0)) (all_from clue s.now at) }
{
    let mut out = [-1; Board::CELL_LIMIT];
    let mut p = at;
    while let Some((c, next)) = lines::clue_at(s, p) {
        let cell = c.y * w + c.x;
        if cell < Board::CELL_LIMIT {
            out[cell] = c.n as i32;
        }
        p = next;
    }
    out
}

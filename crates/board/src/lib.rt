// A board: its limits, the alien test, decide and undo, in place and by value, and making one.
#![tactic(auto)]

ghost use Rattle.std.specs.Prelude.{◌≡◌, ◌-◌, ◌<◌, ◌≤◌, get_or};
ghost use Rattle.rules.specs.Codes.{side_in};
ghost use Rattle.board.specs.Board.{refusal_number, number_of, zero_board, returned, fresh_of};
ghost use Rattle.board.specs.Board.{side_count, pushed, popped, decide_of, undo_of};
ghost use Rattle.board.specs.Alien.{size_right, cells_of, borders_of, puzzle_right, decided_in, unused_in, is_alien};

use crate::conditions::gathered;
use rules::{Literal, Tally};

mod conditions; // conditions.rt: the conditions on colours, clues, stack entries, borders and unused places
mod padding; // padding.rt: a puzzle's lists as arrays
pub mod tallies; // tallies.rt: the three counts, kept and tested
pub mod refusals; // refusals.rt: how making a board, a decide and an undo end, by the tests that code shares

#[derive(Clone, Copy)]
pub struct Board {
    pub height: usize,
    pub width: usize,
    pub colours: [u8; Board::CELL_LIMIT],
    pub clues: [i32; Board::CELL_LIMIT],
    pub borders: [u8; Board::BORDER_LIMIT],
    pub stack: [u16; Board::BORDER_LIMIT],
    pub count: usize,
    pub tally: Tally,
}

// 01's words for unfit calls, with their numbers.
#[derive(Clone, Copy, PartialEq, Eq)]
pub enum Refusal {
    Size = 1,
    Ragged = 2,
    Colour = 3,
    Clue = 4,
    Alien = 5,
    Border = 6,
    Taken = 7,
    Bare = 8,
    Short = 9,
}

// What making a board, a decide or an undo returns.
#[derive(Clone, Copy)]
pub struct Returned {
    pub outcome: Result<(), Refusal>,
    pub board: Board,
}

impl Refusal {
    // 01's number of the refusal.
    pub fn number(self) -> u32
        ensures { result ≡ refusal_number self }
    {
        self as u32
    }
}

// The number of a refusal; 0 where the call is done.
pub fn outcome_number(outcome: Result<(), Refusal>) -> u32
    ensures { result ≡ number_of outcome }
{
    match outcome {
        Ok(()) => 0,
        Err(refusal) => refusal.number(),
    }
}

// Whether height and width are 1 to 32.
#[tactic(auto, unfolding(crate::specs::Alien::size_right))]
pub fn size_right(h: usize, w: usize) -> bool
    ensures { result ≡ size_right h w }
{
    1 <= h && h <= Board::SIDE_LIMIT && 1 <= w && w <= Board::SIDE_LIMIT
}

// How many cells a page of that size has; 0 where it is no page's.
pub fn cell_count(h: usize, w: usize) -> usize
    ensures { result ≡ cells_of h w }
{
    if size_right(h, w) { h * w } else { 0 }
}

// How many borders a page of that size has; 0 where it is no page's.
pub fn border_count(h: usize, w: usize) -> usize
    ensures { result ≡ borders_of h w }
{
    if size_right(h, w) {
        h * (w - 1) + (h - 1) * w
    } else {
        0
    }
}

// What a refused making of a board returns.
fn refused(refusal: Refusal) -> Returned
    ensures { result ≡ returned (Err refusal) zero_board }
{
    Returned {
        outcome: Err(refusal),
        board: Board::zero(),
    }
}

impl Board {
    pub const SIDE_LIMIT: usize = 32;

    pub const CELL_LIMIT: usize = 1024;

    pub const BORDER_LIMIT: usize = 1984;

    // The all-zero board, which making a board returns when refused.
    pub fn zero() -> Self
        ensures { result ≡ zero_board }
    {
        Board {
            height: 0,
            width: 0,
            colours: [0u8; Board::CELL_LIMIT],
            clues: [0i32; Board::CELL_LIMIT],
            borders: [0u8; Board::BORDER_LIMIT],
            stack: [0u16; Board::BORDER_LIMIT],
            count: 0,
            tally: Tally {
                undecided: 0,
                walls: 0,
                opens: 0,
            },
        }
    }

    // A board of that puzzle with every border undecided, or the refusal.
    pub fn fresh(height: usize, width: usize, colours: &[u8], clues: &[i32]) -> Returned
        ensures { result ≡ fresh_of height width colours.now clues.now }
    {
        if !size_right(height, width) {
            return refused(Refusal::Size);
        }
        let cells = cell_count(height, width);
        if let Err(refusal) = refusals::puzzle_refusal(cells, colours, clues) {
            return refused(refusal);
        }
        let board = Board {
            height,
            width,
            colours: padding::padded(colours, 0),
            clues: padding::padded(clues, 0),
            borders: [0u8; Board::BORDER_LIMIT],
            stack: [0u16; Board::BORDER_LIMIT],
            count: 0,
            tally: Tally {
                undecided: border_count(height, width),
                walls: 0,
                opens: 0,
            },
        };
        Returned {
            outcome: Ok(()),
            board,
        }
    }

    // Whether so many cells have a right colour and a right clue.
    #[tactic(auto, unfolding(crate::specs::Alien::puzzle_right))]
    fn cells_right(&self, cells: usize) -> bool
        requires { cells ≤ 1024 }
        ensures { result ≡ puzzle_right cells self.now.colours self.now.clues }
    {
        conditions::colours_right(&self.colours, cells)
            && conditions::clues_right(&self.clues, cells)
    }

    // Whether the stack has each decided one of so many borders once, and nothing else, and the tally is that of these
    // borders.
    fn decisions_right(&self, total: usize) -> bool
        requires { total ≤ 1984 }
        ensures { result ≡ decided_in total self.now.borders self.now.stack self.now.count self.now.tally }
    {
        if total < self.count || !conditions::entries_right(&self.stack, total, self.count) {
            return false;
        }
        let mut seen = [false; Board::BORDER_LIMIT];
        conditions::flag_stack(&self.stack, self.count, &mut seen)
            && conditions::borders_right(&self.borders, &seen, total)
            && tallies::tally_right(total, &self.borders, self.count, self.tally)
    }

    // Whether every place is 0 that so many cells, so many borders and the stack do not use.
    fn unused_zero(&self, cells: usize, total: usize) -> bool
        ensures { result ≡ unused_in cells total self.now.colours self.now.clues self.now.borders
            self.now.stack self.now.count }
    {
        gathered(&self.colours, cells, Board::CELL_LIMIT, 0, |any, c| any | c) == 0
            && gathered(
                &self.clues,
                cells,
                Board::CELL_LIMIT,
                true,
                |zero, k| zero & (k == 0),
            )
            && gathered(
                &self.borders,
                total,
                Board::BORDER_LIMIT,
                0,
                |any, v| any | v,
            ) == 0
            && gathered(
                &self.stack,
                self.count,
                Board::BORDER_LIMIT,
                0,
                |any, e| any | e,
            ) == 0
    }

    // Whether decides and undos cannot produce the board from a fresh one.
    pub fn alien(&self) -> bool
        ensures { result ≡ is_alien self.now }
    {
        if !size_right(self.height, self.width) {
            return true;
        }
        let cells = cell_count(self.height, self.width);
        let total = border_count(self.height, self.width);
        let native = self.cells_right(cells)
            && self.decisions_right(total)
            && self.unused_zero(cells, total);
        !native
    }

    // The border n set to the code v, and put on the stack.
    fn push(&mut self, n: usize, v: u8)
        requires { (n < 1984) × (self.old.count < 1984) × (0 < self.old.tally.undecided)
            × (self.old.tally.walls ≤ 1984) × (self.old.tally.opens ≤ 1984) }
        ensures { self.new ≡ pushed self.old n v }
    {
        let at = self.count;
        self.borders[n] = v;
        self.stack[at] = n as u16;
        self.count += 1;
        self.tally = tallies::more(self.tally, v);
    }

    // The last border of the stack taken off, and made undecided.
    fn pop(&mut self)
        requires { (0 < self.old.count) × (self.old.count ≤ 1984)
            × (get_or self.old.stack (self.old.count - 1) 0 < 1984)
            × (self.old.tally.undecided ≤ 1984) × (0 < side_count self.old.tally
            (side_in (get_or self.old.borders (get_or self.old.stack (self.old.count - 1) 0) 0))) }
        ensures { self.new ≡ popped self.old }
    {
        let at = self.count - 1;
        let n = usize::from(self.stack[at]);
        self.tally = tallies::less(self.tally, self.borders[n]);
        self.borders[n] = 0;
        self.stack[at] = 0;
        self.count = at;
    }

    // Decide in place: the literal's border is decided, or the call is refused and the board as it was.
    pub fn decide_lent(&mut self, l: Literal) -> Result<(), Refusal>
        ensures { returned result self.new ≡ decide_of self.old l }
    {
        if self.alien() {
            return Err(Refusal::Alien);
        }
        let total = border_count(self.height, self.width);
        refusals::decide_refusal(total, &self.borders, l.border)?;
        self.push(l.border, u8::from(l.side));
        Ok(())
    }

    // Undo in place: the last decision is taken back, or the call is refused and the board as it was.
    fn undo_lent(&mut self) -> Result<(), Refusal>
        ensures { returned result self.new ≡ undo_of self.old }
    {
        if self.alien() {
            return Err(Refusal::Alien);
        }
        refusals::undo_refusal(self.count)?;
        self.pop();
        Ok(())
    }

    // The board with the literal's border decided, or the refusal and the board given.
    pub fn decide(mut self, l: Literal) -> Returned
        ensures { result ≡ decide_of self l }
    {
        let outcome = self.decide_lent(l);
        Returned {
            outcome,
            board: self,
        }
    }

    // The board with its last decision taken back, or the refusal and the board given.
    pub fn undo(mut self) -> Returned
        ensures { result ≡ undo_of self }
    {
        let outcome = self.undo_lent();
        Returned {
            outcome,
            board: self,
        }
    }
}

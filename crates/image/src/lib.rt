// A board image made, read, tested and rewritten: `dbchoco_fresh`, `dbchoco_decide`, `dbchoco_undo`, `dbchoco_check`
// and `dbchoco_calls`, which crate image_c exports.
#![tactic(auto)]

ghost use Rattle.std.specs.Prelude.{◌≡◌, false, ◌≤◌, length};
ghost use Rattle.calls.specs.Answers.{answer_number, as_answer};
ghost use Rattle.calls.specs.Known.{KnownBoard, found_in};
ghost use Rattle.image.specs.Image.{image_alien, decide_literal, decide, undo, image_number, image_after};
ghost use Rattle.image.specs.Image.{is_short, bytes_after, check_number, check_bytes};

use board::{Board, Refusal};
use calls::Answer;
use rules::{Literal, Side};

pub mod reading; // reading.rt: the board that an image spells
mod writing; // writing.rt: the bytes that a call changes, and a reason's literals in lent bytes
pub mod series; // series.rt: calls on an image that is not alien, and a list of them
pub mod making; // making.rt: a fresh image made in lent bytes

// Where the parts of an image start, and its length.
pub const COLOURS: usize = 2;

pub const CLUES: usize = 1026;

pub const BORDERS: usize = 5122;

pub const COUNT: usize = 7106;

pub const STACK: usize = 7108;

pub const TALLY: usize = 11076;

pub const LENGTH: usize = 11082;

// Whether decides and undos cannot produce the image.
pub fn alien(image: &[u8]) -> bool
    ensures { result ≡ image_alien image.now }
{
    image.len() != LENGTH || reading::board(image).alien()
}

// The literal of a decide on an image; side 0 is open, any other wall.
pub fn literal(border: usize, side: usize) -> Literal
    ensures { result ≡ decide_literal border side }
{
    let open = side == 0;
    let side = if open { Side::Open } else { Side::Wall };
    Literal { border, side }
}

// Decides a border of the image; side 0 is open, any other wall. The refusal's number, or 0.
pub fn dbchoco_decide(image: &mut [u8], border: u32, side: u32) -> u32
    ensures number { result ≡ image_number image.old (decide border side) }
    ensures bytes { image.new ≡ image_after image.old (decide border side) }
{
    if alien(image) {
        return Refusal::Alien.number();
    }
    board::outcome_number(series::decided(image, border, side))
}

// Takes the last decision of the image back. The refusal's number, or 0.
pub fn dbchoco_undo(image: &mut [u8]) -> u32
    ensures number { result ≡ image_number image.old undo }
    ensures bytes { image.new ≡ image_after image.old undo }
{
    if alien(image) {
        return Refusal::Alien.number();
    }
    board::outcome_number(series::undone(image))
}

// The number of a check's answer of a board that is not alien; a reason's literals are written to the codes, and from
// there to the memory's bytes.
fn answered(
    h: usize,
    w: usize,
    colours: &[u8; Board::CELL_LIMIT],
    clues: &[i32; Board::CELL_LIMIT],
    borders: &[u8; Board::BORDER_LIMIT],
    undecided: usize,
    codes: &mut [u16],
    memory: &mut [u8],
) -> u32
    requires { KnownBoard h w colours.now clues.now borders.now undecided × (1984 ≤ length codes.old)
        × (is_short memory.old ≡ false) }
    ensures number { result ≡ answer_number (as_answer (found_in h w colours.now clues.now
        borders.now)) }
    ensures bytes { memory.new ≡ bytes_after memory.old (found_in h w colours.now
        clues.now borders.now) }
{
    let answer = calls::answer_known(h, w, colours, clues, borders, undecided, codes);
    match answer {
        Answer::Done => 0,
        Answer::Pass(n) => 32 + (n as u32),
        Answer::Conflict(n) => {
            writing::put_codes(memory, codes, n);
            65536 + (n as u32)
        }
        Answer::Refused(refusal) => refusal.number(),
    }
}

// Checks the image. The refusal's number, 32 plus the count of undecided borders for a pass, or 65,536 plus the count
// of literals for a conflict; a reason's literals stand from the start of the memory, two bytes each.
pub fn dbchoco_check(image: &[u8], memory: &mut [u8]) -> u32
    ensures number { result ≡ check_number image.now memory.old }
    ensures bytes { memory.new ≡ check_bytes image.now memory.old }
{
    if image.len() != LENGTH {
        return Refusal::Alien.number();
    }
    let b = reading::board(image);
    if b.alien() {
        return Refusal::Alien.number();
    }
    if writing::short(memory) {
        return Refusal::Short.number();
    }
    let mut codes = [0u16; Board::BORDER_LIMIT];
    answered(
        b.height,
        b.width,
        &b.colours,
        &b.clues,
        &b.borders,
        b.tally.undecided,
        &mut codes,
        memory,
    )
}

// The board that an image spells.
ghost use Rattle.std.specs.Prelude.{◌≡◌, ◌+◌, ◌*◌, ◌<◌, length};
ghost use Rattle.lists.specs.Table.{table};
ghost use Rattle.image.specs.Image.{pair, quad, from_bits, spelled_tally, spelled_board};

use crate::{BORDERS, CLUES, COLOURS, COUNT, STACK, TALLY};
use board::Board;
use rules::Tally;

// The number of two bytes, low byte first.
pub fn two(s: &[u8], k: usize) -> u16
    requires { k + 1 < length s.now }
    ensures { result ≡ pair s.now k }
{
    u16::from_le_bytes([s[k], s[k + 1]])
}

// The number of four bytes, low byte first, two's complement.
fn clue(s: &[u8], k: usize) -> i32
    requires { k + 3 < length s.now }
    ensures { result ≡ from_bits (quad s.now k) }
{
    i32::from_le_bytes([s[k], s[k + 1], s[k + 2], s[k + 3]])
}

// The clues of an image.
fn clues(s: &[u8]) -> [i32; Board::CELL_LIMIT]
    requires { length s.now ≡ 11082 }
    ensures { result ≡ table 1024 (λ i. from_bits (quad s.now (1026 + 4 * i))) }
{
    let mut out = [0i32; Board::CELL_LIMIT];
    for (i, place) in out.iter_mut().enumerate() {
        *place = clue(s, CLUES + 4 * i);
    }
    out
}

// The stack entries of an image.
fn stack(s: &[u8]) -> [u16; Board::BORDER_LIMIT]
    requires { length s.now ≡ 11082 }
    ensures { result ≡ table 1984 (λ i. pair s.now (7108 + 2 * i)) }
{
    let mut out = [0u16; Board::BORDER_LIMIT];
    for (i, place) in out.iter_mut().enumerate() {
        *place = two(s, STACK + 2 * i);
    }
    out
}

// The tally of an image.
pub fn tally(s: &[u8]) -> Tally
    requires { length s.now ≡ 11082 }
    ensures { result ≡ spelled_tally s.now }
{
    Tally {
        undecided: usize::from(two(s, TALLY)),
        walls: usize::from(two(s, TALLY + 2)),
        opens: usize::from(two(s, TALLY + 4)),
    }
}

// The board of an image of the right length.
pub fn board(s: &[u8]) -> Board
    requires { length s.now ≡ 11082 }
    ensures { result ≡ spelled_board s.now }
{
    let mut colours = [0u8; Board::CELL_LIMIT];
    colours.copy_from_slice(&s[COLOURS..CLUES]);
    let mut borders = [0u8; Board::BORDER_LIMIT];
    borders.copy_from_slice(&s[BORDERS..COUNT]);
    Board {
        height: usize::from(s[0]),
        width: usize::from(s[1]),
        colours,
        clues: clues(s),
        borders,
        stack: stack(s),
        count: usize::from(two(s, COUNT)),
        tally: tally(s),
    }
}

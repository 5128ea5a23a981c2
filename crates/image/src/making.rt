// A fresh image made in lent bytes.
ghost use Rattle.std.specs.Prelude.{◌≡◌, ◌+◌, ◌*◌, ◌<◌, ◌≤◌, length};
ghost use Rattle.std.proofs.lemmas.List.Edits.{sets};
ghost use Rattle.lists.specs.Lists.{flat_map};
ghost use Rattle.rules.specs.Flat.{Sized};
ghost use Rattle.board.specs.Board.{fresh_board};
ghost use Rattle.image.specs.Image.{clue_bytes, image_of};
ghost use Rattle.image.specs.Making.{fresh_number, fresh_image};

use crate::writing::put_two;
use crate::{CLUES, COLOURS, LENGTH, TALLY};
use board::{Board, Refusal};

// Stores the colours at their places. It is a loop: `copy_from_slice` of two lent slices needs `memmove` from outside.
fn put_colours(s: &mut [u8], colours: &[u8])
    requires { 2 + length colours.now ≤ length s.old }
    ensures { s.new ≡ sets s.old 2 colours.now }
{
    for (i, colour) in colours.iter().enumerate() {
        s[COLOURS + i] = *colour;
    }
}

// Stores the clues at their places, each low byte first, two's complement.
fn put_clues(s: &mut [u8], clues: &[i32])
    requires { 1026 + 4 * length clues.now ≤ length s.old }
    ensures { s.new ≡ sets s.old 1026 (flat_map clue_bytes clues.now) }
{
    for (i, clue) in clues.iter().enumerate() {
        let k = CLUES + 4 * i;
        s[k..k + 4].copy_from_slice(&clue.to_le_bytes());
    }
}

// Writes the image of the fresh board.
fn put_fresh(s: &mut [u8], height: u8, width: u8, colours: &[u8], clues: &[i32])
    requires { (length s.old ≡ 11082) × Sized height width × (length colours.now ≤ 1024)
        × (length clues.now ≤ 1024) }
    ensures { s.new ≡ image_of (fresh_board height width colours.now clues.now) }
{
    s.fill(0);
    let total = board::border_count(usize::from(height), usize::from(width));
    put_two(s, TALLY, total);
    s[0] = height;
    s[1] = width;
    put_colours(s, colours);
    put_clues(s, clues);
}

// Makes the fresh image of a puzzle in the lent bytes. The refusal's number, 1 to 5, or 0.
pub fn dbchoco_fresh(
    image: &mut [u8],
    height: u32,
    width: u32,
    colours: &[u8],
    clues: &[i32],
) -> u32
    ensures number { result ≡ fresh_number height width colours.now clues.now
        image.old }
    ensures bytes { image.new ≡ fresh_image height width colours.now clues.now
        image.old }
{
    let made = Board::fresh(height as usize, width as usize, colours, clues);
    if let Err(refusal) = made.outcome {
        return refusal.number();
    }
    let other = image.len() != LENGTH;
    if other {
        return Refusal::Alien.number();
    }
    put_fresh(image, height as u8, width as u8, colours, clues);
    0
}

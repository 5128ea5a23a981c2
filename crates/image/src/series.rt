// A decide and an undo on an image that is not alien, and a list of them on an image that is tested once: such a call
// leaves an image that is not alien, so that the next one needs no test.
ghost use Rattle.std.specs.Prelude.{◌≡◌, false, length, get_or};
ghost use Rattle.board.specs.Alien.{borders_of};
ghost use Rattle.image.specs.Image.{image_alien, decide, undo};
ghost use Rattle.image.specs.Series.{SeriesStepped, code_call, done_of, image_done};

use crate::reading::{tally, two};
use crate::writing::rewrite;
use crate::{BORDERS, COUNT, STACK, alien, literal};
use board::{Refusal, refusals, tallies};

// The code of an undo in a list of calls. Any other is that of a literal, which is decided.
const UNDO: u16 = 65535;

// How many borders the page of an image has.
fn border_count(image: &[u8]) -> usize
    requires { length image.now ≡ 11082 }
    ensures { result ≡ borders_of (get_or image.now 0 0) (get_or image.now 1 0) }
{
    board::border_count(usize::from(image[0]), usize::from(image[1]))
}

// Decides a border of an image that is not alien.
pub fn decided(image: &mut [u8], border: u32, side: u32) -> Result<(), Refusal>
    requires { (length image.old ≡ 11082) × (image_alien image.old ≡ false) }
    ensures { SeriesStepped image.old (decide border side) image.new result }
{
    let l = literal(border as usize, side as usize);
    let n = l.border;
    refusals::decide_refusal(border_count(image), &image[BORDERS..COUNT], n)?;
    let at = usize::from(two(image, COUNT));
    let v = u8::from(l.side);
    let t = tally(image);
    rewrite(image, n, v, at + 1, at, n, tallies::more(t, v));
    Ok(())
}

// Takes the last decision of an image that is not alien back.
pub fn undone(image: &mut [u8]) -> Result<(), Refusal>
    requires { (length image.old ≡ 11082) × (image_alien image.old ≡ false) }
    ensures { SeriesStepped image.old undo image.new result }
{
    let count = usize::from(two(image, COUNT));
    refusals::undo_refusal(count)?;
    let at = count - 1;
    let n = usize::from(two(image, STACK + 2 * at));
    let t = tally(image);
    let counted = tallies::less(t, image[BORDERS + n]);
    rewrite(image, n, 0, at, at, 0, counted);
    Ok(())
}

// Makes the call of a code on an image that is not alien.
fn step(image: &mut [u8], code: u16) -> Result<(), Refusal>
    requires { (length image.old ≡ 11082) × (image_alien image.old ≡ false) }
    ensures { SeriesStepped image.old (code_call code) image.new result }
{
    if code == UNDO {
        return undone(image);
    }
    decided(image, u32::from(code / 2), u32::from(code % 2))
}

// Makes the calls of the codes one after another, up to the first that is refused; none on an alien image. How many are
// done.
pub fn dbchoco_calls(image: &mut [u8], codes: &[u16]) -> usize
    ensures number { result ≡ done_of image.old codes.now }
    ensures bytes { image.new ≡ image_done image.old codes.now }
{
    if alien(image) {
        return 0;
    }
    for (i, code) in codes.iter().enumerate() {
        if step(image, *code).is_err() {
            return i;
        }
    }
    codes.len()
}

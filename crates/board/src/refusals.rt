// How making a board, a decide and an undo end after the tests of the size and of alien boards: done, or refused.
ghost use Rattle.std.specs.Prelude.{◌≡◌, ◌≤◌, length};
ghost use Rattle.board.specs.Board.{puzzle_refusal, decide_refusal, undo_refusal};

use crate::Refusal;
use crate::conditions::{clues_right, colours_right};

// How making a board of so many cells ends, after the test of its size.
pub fn puzzle_refusal(cells: usize, colours: &[u8], clues: &[i32]) -> Result<(), Refusal>
    ensures { result ≡ puzzle_refusal cells colours.now clues.now }
{
    if colours.len() != cells || clues.len() != cells {
        return Err(Refusal::Ragged);
    }
    if !colours_right(colours, cells) {
        return Err(Refusal::Colour);
    }
    if !clues_right(clues, cells) {
        return Err(Refusal::Clue);
    }
    Ok(())
}

// How a decide of border n ends on a board that is not alien, from its border count and its borders.
pub fn decide_refusal(total: usize, borders: &[u8], n: usize) -> Result<(), Refusal>
    requires { total ≤ length borders.now }
    ensures { result ≡ decide_refusal total borders.now n }
{
    let beyond = total <= n;
    if beyond {
        return Err(Refusal::Border);
    }
    if borders[n] != 0 {
        return Err(Refusal::Taken);
    }
    Ok(())
}

// How an undo ends on a board that is not alien, from the count of its stack.
pub fn undo_refusal(count: usize) -> Result<(), Refusal>
    ensures { result ≡ undo_refusal count }
{
    let bare = count == 0;
    if bare {
        return Err(Refusal::Bare);
    }
    Ok(())
}

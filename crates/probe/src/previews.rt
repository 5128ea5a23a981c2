// For tests alone: many previews of one literal in one call, to be compared with the book and timed. The board is given
// as an image; an image of another length is alien.
ghost use Rattle.std.specs.Prelude.{◌≡◌, length};
ghost use Rattle.calls.specs.Answers.{literal_of};
ghost use Rattle.probe.specs.Probe.{board_from};
ghost use Rattle.probe.specs.ProbePreviews.{previews_number, previews_memory};

use crate::board_from;
use crate::checks::{literal, number};
use board::Board;
use rules::Literal;

// So many previews of a literal on one board: the number of the last answer, 0 if there was none.
fn previews(board: &Board, l: Literal, times: usize, memory: &mut [u16]) -> usize
    ensures { (result ≡ previews_number board.now l (length memory.old) times)
        × (memory.new ≡ previews_memory board.now l times memory.old) }
{
    let mut last = 0;
    for _ in 0..times {
        last = number(calls::preview_lent(board, l, memory));
    }
    last
}

// So many previews of the literal with this code on the board that the image s spells: the number of the last answer, 0
// if there was none.
pub fn probe_previews(s: &[u8], code: usize, times: usize, memory: &mut [u16]) -> usize
    ensures { (result ≡ previews_number (board_from s.now) (literal_of code) (length memory.old) times)
        × (memory.new ≡ previews_memory (board_from s.now) (literal_of code) times
        memory.old) }
{
    previews(&board_from(s), literal(code), times, memory)
}

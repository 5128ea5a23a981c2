// For tests alone: many checks in one call, to be compared with the published Rust and timed. A literal is its code: 2
// times the border, plus 1 for wall.
ghost use Rattle.std.specs.Prelude.{◌≡◌, map, length};
ghost use Rattle.board.specs.Accepted.{decides_of};
ghost use Rattle.calls.specs.Answers.{literal_of, answer_number, check_answer, check_memory};
ghost use Rattle.calls.specs.NumberLaws.{InRange};
ghost use Rattle.probe.specs.Probe.{board_from};
ghost use Rattle.probe.specs.ProbeChecks.{checks_number, checks_memory, decides_memory};
ghost use Rattle.probe.specs.ProbeChecks.{checked_number, checked_memory};

use crate::board_from;
use board::Board;
use calls::Answer;
use rules::Literal;

// The literal with the code n.
pub fn literal(n: usize) -> Literal
    ensures { result ≡ literal_of n }
{
    image::literal(n / 2, n % 2)
}

// The number of an answer.
pub fn number(a: Answer) -> usize
    requires { InRange a }
    ensures { result ≡ answer_number a }
{
    match a {
        Answer::Done => 0,
        Answer::Pass(n) => 32 + n,
        Answer::Conflict(n) => 65536 + n,
        Answer::Refused(refusal) => refusal.number() as usize,
    }
}

// One check, answered by its number.
fn check_once(board: &Board, memory: &mut [u16]) -> usize
    ensures { (result ≡ answer_number (check_answer board.now (length memory.old)))
        × (memory.new ≡ check_memory board.now memory.old) }
{
    number(calls::check_lent(board, memory))
}

// So many checks of one board: the number of the last answer, 0 if there was none.
fn checks(board: &Board, memory: &mut [u16], times: usize) -> usize
    ensures { (result ≡ checks_number board.now (length memory.old) times)
        × (memory.new ≡ checks_memory board.now times memory.old) }
{
    let mut last = 0;
    for _ in 0..times {
        last = check_once(board, memory);
    }
    last
}

// Decides the literals of the codes one after another, with so many checks after each. A decide that is refused leaves
// the board.
fn decided(board: &mut Board, codes: &[u16], each: usize, memory: &mut [u16])
    ensures { (board.new ≡ decides_of board.old (map literal_of codes.now))
        × (memory.new ≡ decides_memory each board.old (map literal_of codes.now) memory.old) }
{
    for code in codes {
        let _ = board.decide_lent(literal(usize::from(*code)));
        checks(board, memory, each);
    }
}

// Makes the board of a puzzle, decides the literals, with so many checks after each, and then checks so many times. The
// number of the last answer; 0 without a check at the end; the refusal's number if no board is made.
pub fn probe_checks(
    h: usize,
    w: usize,
    colours: &[u8],
    clues: &[i32],
    codes: &[u16],
    each: usize,
    times: usize,
    memory: &mut [u16],
) -> usize
    ensures { (result ≡ checked_number h w colours.now clues.now codes.now times
        (length memory.old))
        × (memory.new ≡ checked_memory h w colours.now clues.now codes.now each
        times memory.old) }
{
    let made = Board::fresh(h, w, colours, clues);
    if let Err(refusal) = made.outcome {
        return refusal.number() as usize;
    }
    let mut board = made.board;
    decided(&mut board, codes, each, memory);
    checks(&board, memory, times)
}

// So many checks of the board that the image s spells: the number of the last answer, 0 if there was none.
pub fn probe_board_checks(s: &[u8], times: usize, memory: &mut [u16]) -> usize
    ensures { (result ≡ checks_number (board_from s.now) (length memory.old) times)
        × (memory.new ≡ checks_memory (board_from s.now) times memory.old) }
{
    checks(&board_from(s), memory, times)
}

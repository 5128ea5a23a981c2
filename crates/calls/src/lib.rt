// `check`, `preview`, `call`, check and preview on a lent board, and a call with a tally record.
#![tactic(auto)]

ghost use Rattle.std.specs.Prelude.{◌≡◌, ◌≤◌, length};
ghost use Rattle.board.specs.Board.{decide_of};
ghost use Rattle.calls.specs.Answers.{as_answer, written, found_answer, found_memory, ended, stepped_by};
ghost use Rattle.calls.specs.Answers.{check_answer, check_memory, preview_answer, preview_memory, call_of, call_memory};
ghost use Rattle.calls.specs.Known.{KnownBoard, found_in};
ghost use Rattle.calls.specs.Counted.{counted_of, counted_memory};

use board::{Board, Refusal, Returned, refusals};
use rules::{Call, Literal, Tally};

pub mod lent; // lent.rt: a call on a tally record that is lent

// What a call answers: done, a pass with the count of undecided borders, a conflict with the count of literals of its
// reason, or refused.
#[derive(Clone, Copy)]
pub enum Answer {
    Done,
    Pass(usize),
    Conflict(usize),
    Refused(Refusal),
}

// The board after a call, with its answer.
#[derive(Clone, Copy)]
pub struct Stepped {
    pub board: Board,
    pub answer: Answer,
}

// What a call with a tally record returns: what the call returns, and the record afterwards.
#[derive(Clone, Copy)]
pub struct Counted {
    pub stepped: Stepped,
    pub tally: Tally,
}

// How a decide or an undo ended, as an answer.
fn ending(outcome: Result<(), Refusal>) -> Answer
    ensures { result ≡ ended outcome }
{
    match outcome {
        Ok(()) => Answer::Done,
        Err(refusal) => Answer::Refused(refusal),
    }
}

// What a decide or an undo returned, as what a call returns.
fn step(returned: Returned) -> Stepped
    ensures { result ≡ stepped_by returned }
{
    Stepped {
        board: returned.board,
        answer: ending(returned.outcome),
    }
}

// What a check answers of a board that is not alien, with a place in the memory for each border. The number after a
// pass is the stored one.
pub fn answer_known(
    h: usize,
    w: usize,
    colours: &[u8; Board::CELL_LIMIT],
    clues: &[i32; Board::CELL_LIMIT],
    borders: &[u8; Board::BORDER_LIMIT],
    undecided: usize,
    memory: &mut [u16],
) -> Answer
    requires { KnownBoard h w colours.now clues.now borders.now undecided
        × (1984 ≤ length memory.old) }
    ensures { (result ≡ as_answer (found_in h w colours.now clues.now borders.now))
        × (memory.new ≡ written memory.old
        (found_in h w colours.now clues.now borders.now)) }
{
    match steps::find(h, w, colours, clues, borders, memory) {
        None => Answer::Pass(undecided),
        Some(n) => Answer::Conflict(n),
    }
}

// What a check answers of a board that is not alien: refused where the memory is short, else as above.
fn answer_tested(
    h: usize,
    w: usize,
    colours: &[u8; Board::CELL_LIMIT],
    clues: &[i32; Board::CELL_LIMIT],
    borders: &[u8; Board::BORDER_LIMIT],
    undecided: usize,
    memory: &mut [u16],
) -> Answer
    requires { KnownBoard h w colours.now clues.now borders.now undecided }
    ensures { (result ≡ found_answer (found_in h w colours.now clues.now borders.now)
        (length memory.old))
        × (memory.new ≡ found_memory (found_in h w colours.now clues.now
        borders.now) memory.old) }
{
    let short = memory.len() < 1984;
    if short {
        return Answer::Refused(Refusal::Short);
    }
    answer_known(h, w, colours, clues, borders, undecided, memory)
}

// What a check of a board that is lent answers; a reason's literals stand from the start of the memory. No board is
// copied.
pub fn check_lent(board: &Board, memory: &mut [u16]) -> Answer
    ensures { (result ≡ check_answer board.now (length memory.old))
        × (memory.new ≡ check_memory board.now memory.old) }
{
    if board.alien() {
        return Answer::Refused(Refusal::Alien);
    }
    answer_tested(
        board.height,
        board.width,
        &board.colours,
        &board.clues,
        &board.borders,
        board.tally.undecided,
        memory,
    )
}

// What a check of a board answers.
pub fn check(board: Board, memory: &mut [u16]) -> Answer
    ensures { (result ≡ check_answer board (length memory.old))
        × (memory.new ≡ check_memory board memory.old) }
{
    check_lent(&board, memory)
}

// How a decide of the literal would end.
fn decide_ends(board: &Board, l: Literal) -> Result<(), Refusal>
    ensures { result ≡ (decide_of board.now l).outcome }
{
    if board.alien() {
        return Err(Refusal::Alien);
    }
    let total = board::border_count(board.height, board.width);
    refusals::decide_refusal(total, &board.borders, l.border)
}

// What a check would answer after a decide of the literal, on a board that is lent. Of the board the borders are
// copied, once. The decide has tested it, and what the decide leaves is not tested again.
pub fn preview_lent(board: &Board, l: Literal, memory: &mut [u16]) -> Answer
    ensures { (result ≡ preview_answer board.now l (length memory.old))
        × (memory.new ≡ preview_memory board.now l memory.old) }
{
    if let Err(refusal) = decide_ends(board, l) {
        return Answer::Refused(refusal);
    }
    let mut borders = board.borders;
    borders[l.border] = u8::from(l.side);
    answer_tested(
        board.height,
        board.width,
        &board.colours,
        &board.clues,
        &borders,
        board.tally.undecided - 1,
        memory,
    )
}

// What a check would answer after a decide of the literal; the board given stays as it is.
pub fn preview(board: Board, l: Literal, memory: &mut [u16]) -> Answer
    ensures { (result ≡ preview_answer board l (length memory.old))
        × (memory.new ≡ preview_memory board l memory.old) }
{
    preview_lent(&board, l, memory)
}

// One call on a board: the board afterwards, and the answer.
pub fn call(board: Board, call: Call, memory: &mut [u16]) -> Stepped
    ensures { (result ≡ call_of board call memory.old)
        × (memory.new ≡ call_memory board call memory.old) }
{
    match call {
        Call::Decide(l) => step(board.decide(l)),
        Call::Undo => step(board.undo()),
        Call::Check => {
            let answer = check_lent(&board, memory);
            Stepped { board, answer }
        }
        Call::Preview(l) => {
            let answer = preview_lent(&board, l, memory);
            Stepped { board, answer }
        }
    }
}

// One call on a board with a tally record by value: refused where the record disagrees with the board.
pub fn call_by_value(board: Board, asked: Call, given: Tally, memory: &mut [u16]) -> Counted
    ensures { (result ≡ counted_of board asked given memory.old)
        × (memory.new ≡ counted_memory board asked given memory.old) }
{
    if given == board.tally {
        let stepped = call(board, asked, memory);
        return Counted {
            stepped,
            tally: stepped.board.tally,
        };
    }
    Counted {
        stepped: Stepped {
            board,
            answer: Answer::Refused(Refusal::Alien),
        },
        tally: given,
    }
}

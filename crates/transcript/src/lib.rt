// The output of the page program, chunk by chunk, and that it is the book's text. A run says how far a page's answers
// are printed; `next` puts the next chunk into a lent buffer. The program only reads the page, calls `next` and writes
// what it put.
#![tactic(auto)]

ghost use Rattle.std.specs.Prelude.{◌≡◌, List, ◌++◌, ℕ, ◌+◌, ◌-◌, ◌*◌, ◌≤◌, length};
ghost use Rattle.rules.specs.Book.{refused};
ghost use Rattle.board.specs.Board.{refusal_number};
ghost use Rattle.page.specs.Grammar.{end_word, call};
ghost use Rattle.page.specs.Judge.{judgement_of};
ghost use Rattle.page.specs.Places.{sheet_at, all_from};
ghost use Rattle.print.specs.Answers.{answers_word, show_reply};
ghost use Rattle.print.specs.Lines.{LineHolds};
ghost use Rattle.transcript.specs.Left.{first_run, goes_on, board_at, judged_text, lines_from, literals_text, line_of};
ghost use Rattle.transcript.specs.Left.{stage_of, left_at, steps_at, first_memory, Goes, Next};

use board::{Board, Refusal};
use calls::Answer;
use page::Parts;
use print::Line;

// What is printed next: the first line; the refusal of the page; the line of the next call; the literals of the memory
// from one place up to another, with the end of their line; the last line; nothing.
#[derive(Clone, Copy)]
pub enum Stage {
    Begin,
    Refused(usize),
    Calls,
    Reason(usize, usize),
    Last,
    Over,
}

// The board, the place of the next call, what is printed next, and how many bytes the chunk has that was just put.
#[derive(Clone, Copy)]
pub struct Run {
    pub board: Board,
    pub at: usize,
    pub stage: Stage,
    pub count: usize,
}

// The run of a page of which nothing is printed yet.
pub fn first() -> Run
    ensures { result ≡ first_run }
{
    Run {
        board: Board::zero(),
        at: 0,
        stage: Stage::Begin,
        count: 0,
    }
}

// Whether something is left to print.
pub fn goes_on(run: Run) -> bool
    ensures { result ≡ goes_on run.stage }
{
    !matches!(run.stage, Stage::Over)
}

// The board of a page whose parts are p.
fn board_of(s: &[u8], p: Parts) -> Board
    ensures { result ≡ board_at (sheet_at s.now p) }
{
    let n = board::cell_count(p.height, p.width);
    let colours = page::colours(s, p);
    let clues = page::clues(s, p);
    Board::fresh(p.height, p.width, &colours[..n], &clues[..n]).board
}

// The first line; then the page is judged.
fn begin(s: &[u8], out: &mut [u8]) -> Run
    requires { 32 ≤ length out.old }
    ensures { (m : List ℕ) → Goes s.now (answers_word ++ judged_text m (judgement_of s.now))
        (length s.now * 2000 + 3) out.old result m out.new }
{
    let count = print::put_line(out, 0, print::answers_line());
    match page::judge(s) {
        Ok(p) => Run {
            board: board_of(s, p),
            at: p.calls,
            stage: Stage::Calls,
            count,
        },
        Err(unfit) => Run {
            stage: Stage::Refused(unfit.number()),
            count,
            ..first()
        },
    }
}

// `(refused n)` and its newline, for a refused call.
fn refusal(refusal: Refusal) -> Line
    ensures { LineHolds result (show_reply (refused (refusal_number refusal))) }
{
    print::refused_line(refusal.number() as usize)
}

// The line of an answer, or its part before the literals; none for a call that is done.
fn line_of(a: Answer) -> Line
    ensures { LineHolds result (line_of a) }
{
    match a {
        Answer::Done => Line::empty(),
        Answer::Pass(n) => print::pass_line(n),
        Answer::Conflict(_) => print::conflict_start(),
        Answer::Refused(r) => refusal(r),
    }
}

// What is printed after that.
fn stage_of(a: Answer) -> Stage
    ensures { result ≡ stage_of a }
{
    match a {
        Answer::Conflict(n) => Stage::Reason(0, n),
        Answer::Done | Answer::Pass(_) | Answer::Refused(_) => Stage::Calls,
    }
}

// The next call is read and made, and its line begins; where there is none, the last line is next.
fn turn(s: &[u8], run: Run, memory: &mut [u16], out: &mut [u8]) -> Run
    requires { 32 ≤ length out.old }
    ensures { Goes s.now (lines_from s.now run.board run.at memory.old)
        ((length s.now - run.at) * 2000 + 2) out.old result memory.new out.new
        × (memory.new ≡ first_memory run.board memory.old (all_from call s.now run.at)) }
{
    let Some((call, next)) = page::call_at(s, run.at) else {
        return Run {
            stage: Stage::Last,
            count: 0,
            ..run
        };
    };
    let stepped = calls::call(run.board, call, memory);
    Run {
        board: stepped.board,
        at: next,
        stage: stage_of(stepped.answer),
        count: print::put_line(out, 0, line_of(stepped.answer)),
    }
}

// More literals of a reason; where none is left, the end of its line.
fn reason(run: Run, memory: &[u16], out: &mut [u8], from: usize, to: usize) -> Run
    requires { 32 ≤ length out.old }
    ensures { (s : List ℕ) → Goes s (literals_text memory.now from to
        ++ (end_word ++ lines_from s run.board run.at memory.now))
        ((length s - run.at) * 2000 + 3 + (to - from)) out.old result memory.now
        out.new }
{
    let chunk = print::put_literals(out, memory, from, to);
    if from < chunk.next {
        return Run {
            stage: Stage::Reason(chunk.next, to),
            count: chunk.count,
            ..run
        };
    }
    Run {
        stage: Stage::Calls,
        count: print::put_line(out, 0, print::end_line()),
        ..run
    }
}

// Puts a line; the run then goes on at the stage after it.
fn put(out: &mut [u8], line: Line, run: Run, stage: Stage) -> Run
    requires { (32 ≤ length out.old) × (line.count ≤ 32) }
    ensures { (s m text : List ℕ) → LineHolds line text → Goes s (text ++ left_at s stage run.board run.at m)
        (steps_at s stage run.at + 1) out.old result m out.new }
{
    Run {
        stage,
        count: print::put_line(out, 0, line),
        ..run
    }
}

// Puts the next chunk of the output into `out`: the run afterwards, whose count says how many bytes it has. The bytes
// beyond them stay, and so does the memory where no call is made.
pub fn next(s: &[u8], run: Run, memory: &mut [u16], out: &mut [u8]) -> Run
    ensures { Next s.now run memory.old out.old result memory.new
        out.new }
{
    if out.len() < 32 {
        return Run { count: 0, ..run };
    }
    match run.stage {
        Stage::Begin => begin(s, out),
        Stage::Refused(n) => put(out, print::refused_line(n), run, Stage::Last),
        Stage::Calls => turn(s, run, memory, out),
        Stage::Reason(from, to) => reason(run, memory, out, from, to),
        Stage::Last => put(out, print::end_line(), run, Stage::Over),
        Stage::Over => Run { count: 0, ..run },
    }
}

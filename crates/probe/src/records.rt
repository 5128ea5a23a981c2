// For tests alone: one call with a tally record, to be compared with the book. The board is given as an image; an image
// of another length is alien. The image is not written.
ghost use Rattle.std.specs.Prelude.{◌≡◌, length};
ghost use Rattle.std.proofs.lemmas.List.Edits.{sets};
ghost use Rattle.calls.specs.Answers.{literal_of};
ghost use Rattle.image.specs.Image.{tally_counts};
ghost use Rattle.probe.specs.Probe.{board_from};
ghost use Rattle.probe.specs.ProbeRecords.{call_with, record_number, record_words, record_memory};

use crate::board_from;
use crate::checks::{literal, number};
use board::Refusal;
use rules::{Call, Tally};

// 0 is a decide of the literal with this code, 1 an undo, 2 a check, any other number a preview of the literal. C gives
// the number.
fn call_with(which: usize, code: usize) -> Call
    ensures { result ≡ call_with which (literal_of code) }
{
    let l = literal(code);
    match which {
        0 => Call::Decide(l),
        1 => Call::Undo,
        2 => Call::Check,
        _ => Call::Preview(l),
    }
}

// Stores the three counts.
fn put_tally(words: &mut [usize], t: Tally)
    requires { length words.old ≡ 3 }
    ensures { words.new ≡ sets words.old 0 (tally_counts t) }
{
    words[0] = t.undecided;
    words[1] = t.walls;
    words[2] = t.opens;
}

// Makes the call on the board that the image s spells, with the record of these words: undecided, walls, opens. The
// number of the answer; the words are the record afterwards. Words that are not three are a record that disagrees.
pub fn probe_counted(
    s: &[u8],
    which: usize,
    code: usize,
    words: &mut [usize],
    memory: &mut [u16],
) -> usize
    ensures { (result ≡ record_number (board_from s.now) (call_with which (literal_of code)) words.old
        memory.old)
        × (words.new ≡ record_words (board_from s.now) (call_with which (literal_of code))
        words.old memory.old)
        × (memory.new ≡ record_memory (board_from s.now) (call_with which (literal_of code))
        words.old memory.old) }
{
    if words.len() != 3 {
        return Refusal::Alien.number() as usize;
    }
    let given = Tally {
        undecided: words[0],
        walls: words[1],
        opens: words[2],
    };
    let made = calls::call_by_value(board_from(s), call_with(which, code), given, memory);
    put_tally(words, made.tally);
    number(made.stepped.answer)
}

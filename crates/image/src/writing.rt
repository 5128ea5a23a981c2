// The bytes that a call on an image changes, and a reason's literals in lent bytes.
ghost use Rattle.std.specs.Prelude.{◌≡◌, ◌+◌, ◌*◌, ◌<◌, ◌≤◌, length};
ghost use Rattle.std.proofs.lemmas.List.Edits.{sets};
ghost use Rattle.image.specs.Image.{two_bytes, tally_bytes, image_written, put_codes, is_short};

use crate::{BORDERS, COUNT, STACK, TALLY};
use rules::Tally;

// The least length of reason memory beside an image.
const REASON_LENGTH: usize = 3968;

// Stores a number in two bytes, low byte first.
pub fn put_two(s: &mut [u8], k: usize, v: usize)
    requires { k + 1 < length s.old }
    ensures { s.new ≡ sets s.old k (two_bytes v) }
{
    let [low, high, ..] = v.to_le_bytes();
    s[k] = low;
    s[k + 1] = high;
}

// Stores the three counts of a tally at their places.
fn put_tally(s: &mut [u8], t: Tally)
    requires { length s.old ≡ 11082 }
    ensures { s.new ≡ sets s.old 11076 (tally_bytes t) }
{
    put_two(s, TALLY, t.undecided);
    put_two(s, TALLY + 2, t.walls);
    put_two(s, TALLY + 4, t.opens);
}

// Sets the border n to v, the count to c, the entry i of the stack to e, and the tally to t.
pub fn rewrite(s: &mut [u8], n: usize, v: u8, c: usize, i: usize, e: usize, t: Tally)
    requires { (length s.old ≡ 11082) × (n < 1984) × (i < 1984) }
    ensures { s.new ≡ image_written s.old n v c i e t }
{
    s[BORDERS + n] = v;
    put_two(s, COUNT, c);
    put_two(s, STACK + 2 * i, e);
    put_tally(s, t);
}

// Whether reason memory beside an image is below 1,984 literals.
pub fn short(memory: &[u8]) -> bool
    ensures { result ≡ is_short memory.now }
{
    memory.len() < REASON_LENGTH
}

// Stores the first n codes of literals in two bytes each, from the start of the memory.
pub fn put_codes(memory: &mut [u8], codes: &[u16], n: usize)
    requires { (n ≤ length codes.now) × (2 * n ≤ length memory.old) }
    ensures { memory.new ≡ put_codes memory.old codes.now n }
{
    for (i, code) in codes[..n].iter().enumerate() {
        put_two(memory, 2 * i, usize::from(*code));
    }
}

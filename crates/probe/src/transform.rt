// For tests alone: the transforms of a board's units. The board is given as an image.
ghost use Rattle.std.specs.Prelude.{◌≡◌, length, set};
ghost use Rattle.std.proofs.lemmas.List.Edits.{sets};
ghost use Rattle.probe.specs.ProbeTransform.{counts_of, answer_in, memory_in};

use board::Refusal;
use transforms::Transformed;

// Stores a count, where there is a place for it.
fn put_count(counts: &mut [usize], i: usize, n: usize)
    ensures { counts.new ≡ set counts.old i n }
{
    if i < counts.len() {
        counts[i] = n;
    }
}

// An answer as four numbers: that of the refusal, or 0, how many transforms the unit has, how many cells and how many
// connections the one asked for has.
fn counts_of(answer: Result<Transformed, Refusal>) -> [usize; 4]
    ensures { result ≡ counts_of answer }
{
    match answer {
        Ok(a) => [0, a.listed, a.cells, a.connections],
        Err(refusal) => [refusal.number() as usize, 0, 0, 0],
    }
}

// Stores an answer's four numbers.
fn put_counts(counts: &mut [usize], answer: Result<Transformed, Refusal>)
    ensures { counts.new ≡ sets counts.old 0 (counts_of answer) }
{
    for (i, count) in counts_of(answer).iter().enumerate() {
        put_count(counts, i, *count);
    }
}

// Transform `k` of unit `u` of the board that the image s spells; an image of another length is alien.
pub fn probe_transform(s: &[u8], u: usize, k: usize, counts: &mut [usize], memory: &mut [i32])
    ensures { (counts.new ≡ sets counts.old 0
        (counts_of (answer_in s.now u k (length memory.old))))
        × (memory.new ≡ memory_in s.now u k memory.old) }
{
    if s.len() != image::LENGTH {
        put_counts(counts, Err(Refusal::Alien));
        return;
    }
    let answer = transforms::transform(image::reading::board(s), u, k, memory);
    put_counts(counts, answer);
}

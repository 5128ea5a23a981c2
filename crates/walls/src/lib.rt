// Step 2 of the check: the first wall between two cells of one block, and the reason of it.
#![tactic(auto)]

ghost use Rattle.std.specs.Prelude.{◌≡◌, true, ◌&&◌, ◌+◌, ◌*◌, ◌<◌, ◌≤◌, length, eqb, ℕ, Option, None, IfSome};
ghost use Rattle.lists.specs.Count.{bit};
ghost use Rattle.rules.specs.Flat.{Sized, flat};
ghost use Rattle.rules.specs.Codes.{states_in};
ghost use Rattle.rules.specs.Groups.{entry};
ghost use Rattle.groups.specs.Grouping.{numbers_in};
ghost use Rattle.reasons.specs.Arrays.{Arrays, InArrays, hops_in, hop_of};
ghost use Rattle.reasons.specs.Memory.{Spare, Wrote};
ghost use Rattle.walls.specs.declared.Breach.{Breach};
ghost use Rattle.walls.specs.Breaches.{is_breach, breach_on, breach_from, first_breach};
ghost use Rattle.walls.specs.WallCases.{breach_at};
ghost use Rattle.walls.specs.Clean.{Apart};
ghost use Rattle.walls.specs.Written.{breach_literals};

use groups::Grouping;
use reasons::{Direction, Neighbour, step};

// A wall between two cells of one block: the cell, the wall and the neighbour over it.
#[derive(Clone, Copy)]
pub struct Breach {
    pub cell: usize,
    pub border: usize,
    pub to: usize,
}

// The border to the neighbour n of the cell c is wall, and n is in the block of c.
fn is_breach(borders: &[u8; 1984], blocks: &Grouping, c: usize, n: Neighbour) -> bool
    requires { Arrays borders.now (numbers_in blocks.now) × (c < 1024) × InArrays n }
    ensures { result ≡ is_breach (states_in borders.now) (entry (numbers_in blocks.now)) c (hop_of n) }
{
    borders[n.border] == 1 && blocks.group_of(c) == blocks.group_of(n.to)
}

// The breach over the border to the neighbour of the cell c, if there is one.
fn hop_breach(
    borders: &[u8; 1984],
    blocks: &Grouping,
    c: usize,
    neighbour: Option<Neighbour>,
) -> Option<Breach>
    requires { Arrays borders.now (numbers_in blocks.now) × (c < 1024) × IfSome neighbour InArrays }
    ensures { result ≡ breach_on (states_in borders.now) (entry (numbers_in blocks.now)) c
        (hops_in neighbour) }
{
    let n = neighbour?;
    is_breach(borders, blocks, c, n).then_some(Breach {
        cell: c,
        border: n.border,
        to: n.to,
    })
}

// The first breach at the cell (y,x), if there is one: below, then right.
fn cell_breach(
    h: usize,
    w: usize,
    borders: &[u8; 1984],
    blocks: &Grouping,
    y: usize,
    x: usize,
) -> Option<Breach>
    requires { Sized h w × Arrays borders.now (numbers_in blocks.now) × (y < h) × (x < w) }
    ensures { result ≡ breach_at h w borders.now (numbers_in blocks.now) (y * w + x) }
{
    let c = y * w + x;
    let below = step(h, w, y, x, Direction::Below);
    let right = step(h, w, y, x, Direction::Right);
    hop_breach(borders, blocks, c, below).or_else(|| hop_breach(borders, blocks, c, right))
}

// The first breach that `at` gives for the numbers below n, if there is one. A loop, since what the library says of
// `find_map` does not tell the proof what the closure gave.
fn first_of<F: Fn(usize) -> Option<Breach>>(n: usize, at: F) -> Option<Breach>
    requires { (i : ℕ) → i < n → F.pre at i }
    ensures { (f : ℕ → Option Breach) → ((i : ℕ) (r : Option Breach) → i < n → F.post at i r → r ≡ f i)
        → result ≡ breach_from f n 0 }
{
    for i in 0..n {
        let found = at(i);
        if found.is_some() {
            return found;
        }
    }
    None
}

// The first breach in the row y, if there is one.
fn row_breach(
    h: usize,
    w: usize,
    borders: &[u8; 1984],
    blocks: &Grouping,
    y: usize,
) -> Option<Breach>
    requires { Sized h w × Arrays borders.now (numbers_in blocks.now) × (y < h) }
    ensures { result ≡ breach_from (breach_at h w borders.now (numbers_in blocks.now)) w
        (y * w) }
{
    first_of(w, |x| cell_breach(h, w, borders, blocks, y, x))
}

// 1 for a wall between two cells of one block, else 0.
fn hit(state: u8, a: u16, b: u16) -> u16
    ensures { result ≡ bit (eqb state 1 && eqb a b) }
{
    u16::from(state == 1 && a == b)
}

// How many of the n borders from `at` on are walls between two cells of one block; the cells from c on stand before
// them, those from d on behind them. There is no exit at the first: the loop then takes many at a time.
fn count_hits(
    borders: &[u8; 1984],
    blocks: &Grouping,
    at: usize,
    c: usize,
    d: usize,
    n: usize,
) -> u16
    requires { Arrays borders.now (numbers_in blocks.now) × (at + n ≤ 1984) × (c + n ≤ 1024) × (d + n ≤ 1024) }
    ensures { result ≡ 0 → Apart (states_in borders.now)
        (entry (numbers_in blocks.now)) at c d n }
{
    let mut hits = 0;
    for i in 0..n {
        hits += hit(
            borders[at + i],
            blocks.numbers[c + i],
            blocks.numbers[d + i],
        );
    }
    hits
}

// Whether there is no breach: none over the borders below, and none over those on the right of each row.
fn is_clean(h: usize, w: usize, borders: &[u8; 1984], blocks: &Grouping) -> bool
    requires { Sized h w × Arrays borders.now (numbers_in blocks.now) }
    ensures { result ≡ true → None ≡ first_breach (flat h w) (states_in borders.now)
        (entry (numbers_in blocks.now)) }
{
    if count_hits(borders, blocks, h * (w - 1), 0, w, (h - 1) * w) != 0 {
        return false;
    }
    for y in 0..h {
        if count_hits(borders, blocks, y * (w - 1), y * w, y * w + 1, w - 1) != 0 {
            return false;
        }
    }
    true
}

// The first breach, row by row, if there is one.
pub fn first_breach(h: usize, w: usize, borders: &[u8; 1984], blocks: &Grouping) -> Option<Breach>
    requires { Sized h w × Arrays borders.now (numbers_in blocks.now) }
    ensures { result ≡ first_breach (flat h w) (states_in borders.now)
        (entry (numbers_in blocks.now)) }
{
    if is_clean(h, w, borders, blocks) {
        return None;
    }
    first_of(h, |y| row_breach(h, w, borders, blocks, y))
}

// The reason of a breach, from the start of the memory; gives the number of literals.
pub fn write_breach(
    memory: &mut [u16],
    h: usize,
    w: usize,
    borders: &[u8; 1984],
    breach: Breach,
) -> usize
    requires { Sized h w × (length borders.now ≡ 1984) × (breach.border < 1984)
        × Spare memory.old 0 }
    ensures { Wrote memory.old 0 (breach_literals (flat h w) (states_in borders.now) breach)
        memory.new result }
{
    reasons::paths::wall_reason(memory, h, w, borders, breach.cell, breach.to, breach.border)
}

// Inside, Edge and Path, written into a reason's memory, each border once.
#![tactic(auto)]

ghost use Rattle.std.specs.Prelude.{◌≡◌, not, cond, [], ◌∷◌, ◌+◌, ◌*◌, ◌<◌, ◌≤◌, length};
ghost use Rattle.rules.specs.Flat.{Sized};
ghost use Rattle.rules.specs.Codes.{literal_code};
ghost use Rattle.groups.specs.Grouping.{numbers_in};
ghost use Rattle.reasons.specs.Memory.{named_in, naming, Spare, Wrote, WordsWritten};
ghost use Rattle.reasons.specs.Arrays.{GroupAt, Stepped, no_flags, inside_in, edge_in};

use crate::scans::{open_cell, scan_walls};
use groups::Grouping;
use rules::{Literal, Side};

pub mod paths; // paths.rt: Path, by a search over open borders, and the reason of a wall
pub mod scans; // scans.rt: what Inside lists for a cell, and the walls of a group that a scan keeps

// The places of working memory: 1,984 for literals, then one for each border. Memory of 1,984 places will do for a
// reason that names no border twice.
pub const WORK_LENGTH: usize = 3968;

// A direction from a cell.
#[derive(Clone, Copy)]
pub enum Direction {
    Above,
    Below,
    Left,
    Right,
}

impl Direction {
    // The four, in the order in which a cell's neighbours are tried.
    pub const ALL: [Direction; 4] = [
        Direction::Above,
        Direction::Below,
        Direction::Left,
        Direction::Right,
    ];
}

// A neighbour of a cell: over which border, and which cell.
#[derive(Clone, Copy)]
pub struct Neighbour {
    pub border: usize,
    pub to: usize,
}

// What reason memory holds for a literal.
fn code(literal: Literal) -> u16
    requires { literal.border < 1984 }
    ensures { result ≡ literal_code literal }
{
    let twice = (2 * literal.border) as u16;
    match literal.side {
        Side::Wall => twice + 1,
        Side::Open => twice,
    }
}

// Names a border, where the memory has a place for that; says whether it was not named before.
fn name(memory: &mut [u16], border: usize) -> bool
    requires { border < 1984 }
    ensures { (result ≡ not (named_in memory.old border))
        × (memory.new ≡ cond result (naming memory.old border) memory.old) }
{
    let place = 1984 + border;
    if memory.len() <= place {
        return true;
    }
    let named = memory[place] != 0;
    if named {
        return false;
    }
    memory[place] = 1;
    true
}

// Writes a literal at the place `at` and names its border, unless that is named; gives the next place. No reason has
// more literals than there are places for them.
pub fn append(memory: &mut [u16], at: usize, literal: Literal) -> usize
    requires { Spare memory.old at × (literal.border < 1984) }
    ensures { Wrote memory.old at (literal ∷ []) memory.new result }
{
    let full = 1984 <= at;
    if full {
        return at;
    }
    if name(memory, literal.border) {
        memory[at] = code(literal);
        return at + 1;
    }
    at
}

// Writes the words from the start of the lent memory, and nothing beyond; gives how many they are. It is a loop:
// `copy_from_slice` of two lent slices needs `memmove` from outside.
pub fn hand_out(memory: &mut [u16], words: &[u16]) -> usize
    requires { length words.now ≤ length memory.old }
    ensures { WordsWritten memory.old words.now memory.new result }
{
    for (i, word) in words.iter().enumerate() {
        memory[i] = *word;
    }
    words.len()
}

// The neighbour of the cell c, which is (y,x), in a direction.
fn beside(
    h: usize,
    w: usize,
    c: usize,
    y: usize,
    x: usize,
    direction: Direction,
) -> Option<Neighbour>
    requires { Sized h w × (y < h) × (x < w) × (c ≡ y * w + x) }
    ensures { Stepped h w y x direction result }
{
    let side = y * (w - 1) + x;
    let under = h * (w - 1) + c;
    match direction {
        Direction::Above if 0 < y => Some(Neighbour {
            border: under - w,
            to: c - w,
        }),
        Direction::Below if y + 1 < h => Some(Neighbour {
            border: under,
            to: c + w,
        }),
        Direction::Left if 0 < x => Some(Neighbour {
            border: side - 1,
            to: c - 1,
        }),
        Direction::Right if x + 1 < w => Some(Neighbour {
            border: side,
            to: c + 1,
        }),
        _ => None,
    }
}

// The neighbour of (y,x) in a direction.
pub fn step(h: usize, w: usize, y: usize, x: usize, direction: Direction) -> Option<Neighbour>
    requires { Sized h w × (y < h) × (x < w) }
    ensures { Stepped h w y x direction result }
{
    beside(h, w, y * w + x, y, x, direction)
}

// Edge of the group g, from the place `start`; gives the next place. The flags are lent: all are 0, and so they are
// again afterwards.
pub fn edge(
    memory: &mut [u16],
    start: usize,
    h: usize,
    w: usize,
    colours: &[u8; 1024],
    borders: &[u8; 1984],
    grouping: &Grouping,
    g: usize,
    flagged: &mut [u8; 1024],
) -> usize
    requires { Sized h w × (length borders.now ≡ 1984) × (length colours.now ≡ 1024)
        × GroupAt h w grouping.now g × Spare memory.old start × (flagged.old ≡ no_flags) }
    ensures { Wrote memory.old start (edge_in h w colours.now borders.now
        (numbers_in grouping.now) g) memory.new result × (flagged.new ≡ no_flags) }
{
    flagged[g] = 1;
    let at = scan_walls(
        memory, start, h, w, colours, borders, grouping, g, true, flagged,
    );
    flagged[g] = 0;
    at
}

// Inside of the group g, from the place `start`; gives the next place.
pub fn inside(
    memory: &mut [u16],
    start: usize,
    h: usize,
    w: usize,
    borders: &[u8; 1984],
    grouping: &Grouping,
    g: usize,
) -> usize
    requires { Sized h w × (length borders.now ≡ 1984) × GroupAt h w grouping.now g
        × Spare memory.old start }
    ensures { Wrote memory.old start (inside_in h w borders.now
        (numbers_in grouping.now) g) memory.new result }
{
    // a loop of its own: one scan for Inside and Edge, told which borders to keep, takes a third more time
    let cells = grouping.cells_of(g);
    let mut at = start;
    for cell in cells {
        let c = usize::from(*cell);
        at = open_cell(memory, at, h, w, borders, grouping, g, c);
    }
    at
}

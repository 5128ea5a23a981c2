// For tests alone: groups and their parts, reasons, transforms, checks and previews, which crate probe_c exports, to be
// compared with the published Rust. Each function of this file writes its words from the start of the memory and gives
// how many they are. Where the size is no page's, or the memory has under 16,384 places, it gives 65,535 and leaves the
// memory. Colours and borders may have any length: past their end they are 0.
#![tactic(auto)]

ghost use Rattle.std.specs.Prelude.{◌≡◌, ◌≤◌, length};
ghost use Rattle.rules.specs.Flat.{Sized};
ghost use Rattle.rules.specs.Groups.{entry};
ghost use Rattle.groups.specs.Grouping.{array_of, Filled};
ghost use Rattle.probe.specs.Probe.{board_from, places_of, probe_fits, kind_of, kind_groups, words_in};
ghost use Rattle.image.specs.Image.{side_of};
ghost use Rattle.probe.specs.Probe.{reason_words, path_words, ProbeAnswered};
ghost use Rattle.reasons.specs.Memory.{WordsWritten};

use board::Board;
use groups::{Grouping, Kind};
use reasons::{WORK_LENGTH, hand_out};

pub mod asked; // asked.rt: the groups asked of a board, and their parts
pub mod checks; // checks.rt: many checks in one call
pub mod previews; // previews.rt: many previews in one call
pub mod records; // records.rt: a call with a tally record
pub mod transform; // transform.rt: the transforms of a board's units

// The least memory that is lent to a call.
const ROOM: usize = 16384;

// What an unfit call gives.
const UNFIT: usize = 65535;

// The board that the image s spells; the all-zero board, which is alien, where s has another length.
fn board_from(s: &[u8]) -> Board
    ensures { result ≡ board_from s.now }
{
    if s.len() != image::LENGTH {
        return Board::zero();
    }
    image::reading::board(s)
}

// The bytes of s in N places, cut off or filled up with 0.
fn places<const N: usize>(s: &[u8]) -> [u8; N]
    ensures { result ≡ places_of N s.now }
{
    let mut out = [0u8; N];
    let n = s.len().min(N);
    out[..n].copy_from_slice(&s[..n]);
    out
}

// Whether the size is a page's, and the memory is large enough.
fn fits(h: usize, w: usize, room: usize) -> bool
    ensures { result ≡ probe_fits h w room }
{
    board::cell_count(h, w) >= 1 && room >= ROOM
}

// 0 is blocks, 1 units, any other number potential units. C gives the number.
fn kind_of(kind: u32) -> Kind
    ensures { result ≡ kind_of kind }
{
    match kind {
        0 => Kind::Blocks,
        1 => Kind::Units,
        _ => Kind::Potential,
    }
}

// The groups of one kind.
fn grouped(h: usize, w: usize, colours: &[u8], borders: &[u8], kind: u32) -> Grouping
    requires { Sized h w }
    ensures { Filled (kind_groups h w colours.now borders.now kind) result }
{
    groups::groups_of(h, w, &places(colours), &places(borders), kind_of(kind))
}

// Writes a grouping from the start of the memory: the cells' numbers, the cells group by group, where each group
// starts, and the count.
fn hand_out_grouping(memory: &mut [u16], grouping: &Grouping) -> usize
    requires { 16384 ≤ length memory.old }
    ensures { WordsWritten memory.old (words_in grouping.now) memory.new result }
{
    memory[..1024].copy_from_slice(&grouping.numbers);
    memory[1024..2048].copy_from_slice(&grouping.cells);
    memory[2048..3073].copy_from_slice(&grouping.starts);
    memory[3073] = grouping.count;
    3074
}

// Writes Inside (side 0) or Edge (any other side) of the group with that number, each border once.
fn put_reason(
    memory: &mut [u16],
    h: usize,
    w: usize,
    colours: &[u8],
    borders: &[u8],
    kind: u32,
    side: u32,
    group: usize,
) -> usize
    requires { Sized h w × (16384 ≤ length memory.old) }
    ensures { WordsWritten memory.old
        (reason_words h w colours.now borders.now kind
        (side_of side) group) memory.new result }
{
    let grouping = grouped(h, w, colours, borders, kind);
    if grouping.count_of() <= group {
        return 0;
    }
    let b = places(borders);
    let mut work = [0u16; WORK_LENGTH];
    if side == 0 {
        let n = reasons::inside(&mut work, 0, h, w, &b, &grouping, group);
        return hand_out(memory, &work[..n]);
    }
    let c = places(colours);
    let mut flagged = [0u8; Board::CELL_LIMIT];
    let f = &mut flagged;
    let n = reasons::edge(&mut work, 0, h, w, &c, &b, &grouping, group, f);
    hand_out(memory, &work[..n])
}

// Writes the path from cell a to cell b, each border once.
fn put_path(memory: &mut [u16], h: usize, w: usize, borders: &[u8], a: usize, b: usize) -> usize
    requires { Sized h w × (16384 ≤ length memory.old) }
    ensures { WordsWritten memory.old (path_words h w borders.now a b) memory.new
        result }
{
    let states = places(borders);
    let mut work = [0u16; WORK_LENGTH];
    let n = reasons::paths::path(&mut work, 0, h, w, &states, a, b);
    hand_out(memory, &work[..n])
}

// The groups of one kind, as they stand in a grouping: the cells' numbers (1,024 places), the cells group by group
// (1,024), where each group starts (1,025), and the count.
pub fn probe_groups(
    h: usize,
    w: usize,
    colours: &[u8],
    borders: &[u8],
    kind: u32,
    memory: &mut [u16],
) -> usize
    ensures { ProbeAnswered h w memory.old
        (array_of (kind_groups h w colours.now borders.now kind)) memory.new result }
{
    if fits(h, w, memory.len()) {
        let grouping = grouped(h, w, colours, borders, kind);
        return hand_out_grouping(memory, &grouping);
    }
    UNFIT
}

// Inside (side 0) or Edge (any other side) of a group of one kind; no literals if no group has the number.
pub fn probe_reason(
    h: usize,
    w: usize,
    colours: &[u8],
    borders: &[u8],
    kind: u32,
    side: u32,
    group: usize,
    memory: &mut [u16],
) -> usize
    ensures { ProbeAnswered h w memory.old
        (reason_words h w colours.now borders.now
        kind (side_of side) group) memory.new result }
{
    if fits(h, w, memory.len()) {
        return put_reason(memory, h, w, colours, borders, kind, side, group);
    }
    UNFIT
}

// Path from cell a to cell b.
pub fn probe_path(
    h: usize,
    w: usize,
    borders: &[u8],
    a: usize,
    b: usize,
    memory: &mut [u16],
) -> usize
    ensures { ProbeAnswered h w memory.old (path_words h w borders.now a b)
        memory.new result }
{
    if fits(h, w, memory.len()) {
        return put_path(memory, h, w, borders, a, b);
    }
    UNFIT
}

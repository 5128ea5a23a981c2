// The walls in the reason of a unit: those of its potential unit, of the adjacent ones, and to the others.
ghost use Rattle.std.specs.Prelude.{◌≡◌, length};
ghost use Rattle.rules.specs.Flat.{Sized};
ghost use Rattle.groups.specs.Grouping.{numbers_in, group_cells};
ghost use Rattle.reasons.specs.Arrays.{GroupAt, no_flags};
ghost use Rattle.reasons.specs.Memory.{Spare, Wrote};
ghost use Rattle.adjacent.specs.Mates.{mates_in};
ghost use Rattle.stuck.specs.Writing.{Low, Mated, flags_of, edges_in, far_in, walls_in};

use adjacent::Mates;
use board::Board;
use groups::Grouping;
use reasons::edge;
use reasons::scans::scan_walls;

// Writes Edge of each of the groups in the list of mates; gives the next place.
fn edges_of(
    memory: &mut [u16],
    start: usize,
    h: usize,
    w: usize,
    colours: &[u8; Board::CELL_LIMIT],
    borders: &[u8; Board::BORDER_LIMIT],
    potential: &Grouping,
    mates: &Mates,
    flagged: &mut [u8; Board::CELL_LIMIT],
) -> usize
    requires { Sized h w × (length borders.now ≡ 1984) × (length colours.now ≡ 1024)
        × Mated h w potential.now mates.now × Spare memory.old start × (flagged.old ≡ no_flags) }
    ensures { Wrote memory.old start
        (edges_in h w colours.now borders.now (numbers_in potential.now)
        (mates_in mates.now)) memory.new result × (flagged.new ≡ no_flags) }
{
    let mut at = start;
    for mate in &mates[..usize::from(mates[1024])] {
        let q = usize::from(*mate);
        at = edge(memory, at, h, w, colours, borders, potential, q, flagged);
    }
    at
}

// Flags each group in the list of mates, in flags that are 0.
fn flag_mates(mates: &Mates, flagged: &mut [u8; Board::CELL_LIMIT])
    requires { Low mates.now × (flagged.old ≡ no_flags) }
    ensures { flagged.new ≡ flags_of (mates_in mates.now) }
{
    for mate in &mates[..usize::from(mates[1024])] {
        flagged[usize::from(*mate)] = 1;
    }
}

// Writes the walls from the cells of the potential unit p to cells of the other colour in groups that are not in the
// list of mates; gives the next place.
fn far_walls(
    memory: &mut [u16],
    start: usize,
    h: usize,
    w: usize,
    colours: &[u8; Board::CELL_LIMIT],
    borders: &[u8; Board::BORDER_LIMIT],
    potential: &Grouping,
    p: usize,
    mates: &Mates,
    flagged: &mut [u8; Board::CELL_LIMIT],
) -> usize
    requires { Sized h w × (length borders.now ≡ 1984) × (length colours.now ≡ 1024)
        × GroupAt h w potential.now p × Low mates.now × Spare memory.old start × (flagged.old ≡ no_flags) }
    ensures { Wrote memory.old start
        (far_in h w colours.now borders.now (numbers_in potential.now)
        (mates_in mates.now) (group_cells potential.now p)) memory.new result }
{
    flag_mates(mates, flagged);
    scan_walls(
        memory, start, h, w, colours, borders, potential, p, false, flagged,
    )
}

// Writes the walls of the potential unit p: its Edge, Edge of each potential unit adjacent to it, and its walls to
// cells of the other colour in units that are not adjacent to it. Gives the next place.
pub fn walls_of(
    memory: &mut [u16],
    start: usize,
    h: usize,
    w: usize,
    colours: &[u8; Board::CELL_LIMIT],
    borders: &[u8; Board::BORDER_LIMIT],
    potential: &Grouping,
    p: usize,
    mates: &Mates,
) -> usize
    requires { Sized h w × (length borders.now ≡ 1984) × (length colours.now ≡ 1024)
        × Mated h w potential.now mates.now × GroupAt h w potential.now p
        × Spare memory.old start }
    ensures { Wrote memory.old start
        (walls_in h w colours.now borders.now (numbers_in potential.now) p
        (mates_in mates.now) (group_cells potential.now p)) memory.new result }
{
    let mut flagged = [0u8; Board::CELL_LIMIT];
    let flags = &mut flagged;
    let own = edge(memory, start, h, w, colours, borders, potential, p, flags);
    let all = edges_of(memory, own, h, w, colours, borders, potential, mates, flags);
    far_walls(
        memory, all, h, w, colours, borders, potential, p, mates, flags,
    )
}

// What Inside lists for a cell, and the walls of a group that a scan keeps: to groups that are not flagged.
ghost use Rattle.std.specs.Prelude.{◌≡◌, Bool, ◌*◌, ◌<◌, length, IfSome};
ghost use Rattle.std.specs.Bool.{beq};
ghost use Rattle.rules.specs.Flat.{Sized, flat};
ghost use Rattle.rules.specs.Page.{Hop};
ghost use Rattle.rules.specs.Codes.{states_in, colours_in};
ghost use Rattle.rules.specs.Groups.{entry};
ghost use Rattle.rules.specs.Reasons.{gather, inside_at};
ghost use Rattle.groups.specs.Grouping.{numbers_in, group_cells};
ghost use Rattle.reasons.specs.declared.Neighbour.{Neighbour};
ghost use Rattle.reasons.specs.Memory.{Spare, Wrote};
ghost use Rattle.reasons.specs.Arrays.{Arrays, GroupAt, InArrays, hop_of, hops_in, is_flagged};
ghost use Rattle.reasons.specs.Arrays.{open_kept, wall_kept, scan_at, scan_of};

use crate::{Direction, Neighbour, append, beside};
use groups::Grouping;
use rules::{Literal, Side};

// The cells c and to have one colour.
fn one_colour(colours: &[u8; 1024], c: usize, to: usize) -> bool
    requires { (length colours.now ≡ 1024) × (c < 1024) × (to < 1024) }
    ensures { result ≡ beq (colours_in colours.now c) (colours_in colours.now to) }
{
    (colours[c] == 1) == (colours[to] == 1)
}

// The group is flagged. A number past the last flag has no flag.
fn is_flagged(flagged: &[u8; 1024], group: usize) -> bool
    requires { length flagged.now ≡ 1024 }
    ensures { result ≡ is_flagged flagged.now group }
{
    group < 1024 && flagged[group] == 1
}

// The border to the neighbour n is open, and n is in the group g.
fn open_kept(borders: &[u8; 1984], grouping: &Grouping, g: usize, n: Neighbour) -> bool
    requires { Arrays borders.now (numbers_in grouping.now) × InArrays n }
    ensures { result ≡ open_kept (states_in borders.now) (entry (numbers_in grouping.now)) g (hop_of n) }
{
    let open = borders[n.border] == 2;
    open && grouping.group_of(n.to) == g
}

// The border to the neighbour n of the cell c is wall, n has the colour of c (or, if `same` is false, the other one),
// and its group is not flagged.
fn wall_kept(
    colours: &[u8; 1024],
    borders: &[u8; 1984],
    grouping: &Grouping,
    same: bool,
    flagged: &[u8; 1024],
    c: usize,
    n: Neighbour,
) -> bool
    requires { Arrays borders.now (numbers_in grouping.now) × (length colours.now ≡ 1024)
        × (length flagged.now ≡ 1024) × (c < 1024) × InArrays n }
    ensures { result ≡ wall_kept (colours_in colours.now) (states_in borders.now)
        (entry (numbers_in grouping.now)) same (is_flagged flagged.now) c (hop_of n) }
{
    let wall = borders[n.border] == 1;
    wall && one_colour(colours, c, n.to) == same && !is_flagged(flagged, grouping.group_of(n.to))
}

// Writes the border to the neighbour, if there is one and it is kept. Gives the next place.
fn append_kept<K: Fn(Neighbour) -> bool>(
    memory: &mut [u16],
    at: usize,
    side: Side,
    neighbour: Option<Neighbour>,
    keeps: K,
) -> usize
    requires spare { Spare memory.old at }
    requires near { IfSome neighbour InArrays }
    requires callable { IfSome neighbour (λ n. K.pre keeps n) }
    ensures { (test : Hop → Bool)
        → ((n : Neighbour) (kept : Bool) → K.post keeps n kept → kept ≡ test (hop_of n))
        → Wrote memory.old at (gather side test (hops_in neighbour)) memory.new result }
{
    match neighbour {
        Some(n) if keeps(n) => append(
            memory,
            at,
            Literal {
                border: n.border,
                side,
            },
        ),
        _ => at,
    }
}

// Writes the open borders of the cell c into the group g: below, right.
pub fn open_cell(
    memory: &mut [u16],
    from: usize,
    h: usize,
    w: usize,
    borders: &[u8; 1984],
    grouping: &Grouping,
    g: usize,
    c: usize,
) -> usize
    requires { Sized h w × Arrays borders.now (numbers_in grouping.now) × (c < h * w) × Spare memory.old from }
    ensures { Wrote memory.old from (inside_at (flat h w) (states_in borders.now)
        (entry (numbers_in grouping.now)) g c) memory.new result }
{
    // a call for each direction and no loop, so that each is compiled for its direction
    let y = c / w;
    let x = c % w;
    let below = beside(h, w, c, y, x, Direction::Below);
    let right = beside(h, w, c, y, x, Direction::Right);
    let keeps = |n: Neighbour| open_kept(borders, grouping, g, n);
    let at = append_kept(memory, from, Side::Open, below, &keeps);
    append_kept(memory, at, Side::Open, right, &keeps)
}

// Writes the walls of the cell c that the scan keeps: above, below, left, right.
fn wall_cell(
    memory: &mut [u16],
    from: usize,
    h: usize,
    w: usize,
    colours: &[u8; 1024],
    borders: &[u8; 1984],
    grouping: &Grouping,
    same: bool,
    flagged: &[u8; 1024],
    c: usize,
) -> usize
    requires { Sized h w × Arrays borders.now (numbers_in grouping.now) × (length colours.now ≡ 1024)
        × (length flagged.now ≡ 1024) × (c < h * w) × Spare memory.old from }
    ensures { Wrote memory.old from (scan_at h w colours.now borders.now
        (numbers_in grouping.now) same flagged.now c) memory.new result }
{
    let y = c / w;
    let x = c % w;
    let mut at = from;
    for direction in Direction::ALL {
        let n = beside(h, w, c, y, x, direction);
        at = append_kept(memory, at, Side::Wall, n, |n| {
            wall_kept(colours, borders, grouping, same, flagged, c, n)
        });
    }
    at
}

// Writes the walls of the cells of the group g to cells of the same colour (of the other, if `same` is false) in groups
// that are not flagged, from the place `start`; gives the next place. Step 3's last walls are those to the other
// colour, with the potential units adjacent to P flagged.
pub fn scan_walls(
    memory: &mut [u16],
    start: usize,
    h: usize,
    w: usize,
    colours: &[u8; 1024],
    borders: &[u8; 1984],
    grouping: &Grouping,
    g: usize,
    same: bool,
    flagged: &[u8; 1024],
) -> usize
    requires { Sized h w × (length borders.now ≡ 1984) × (length colours.now ≡ 1024)
        × (length flagged.now ≡ 1024) × GroupAt h w grouping.now g × Spare memory.old start }
    ensures { Wrote memory.old start (scan_of h w colours.now borders.now
        (numbers_in grouping.now) same flagged.now (group_cells grouping.now g))
        memory.new result }
{
    let cells = grouping.cells_of(g);
    let mut at = start;
    for cell in cells {
        let c = usize::from(*cell);
        at = wall_cell(
            memory, at, h, w, colours, borders, grouping, same, flagged, c,
        );
    }
    at
}

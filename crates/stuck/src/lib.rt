// Step 3 of the check: the reason of a unit that fits nowhere, written into a reason's memory.
#![tactic(auto)]

ghost use Rattle.std.proofs.Math.Option.{Option};
ghost use Rattle.std.specs.Prelude.{ℕ};
ghost use Rattle.rules.specs.Codes.{clued_by, states_in, unclued};
ghost use Rattle.rules.specs.Check.{unit_reason};
ghost use Rattle.groups.specs.Grouping.{cells_in, starts_in};
ghost use Rattle.groups.specs.Pages.{Drawn, potential_in};
ghost use Rattle.reasons.specs.Memory.{Spare, Wrote};
ghost use Rattle.shapes.specs.Images.{Jointed};
ghost use Rattle.shapes.specs.Spots.{Spotted, cell_spots, joint_spots};
ghost use Rattle.shapes.specs.Listing.{Rows};
ghost use Rattle.adjacent.specs.Mates.{mates_in, Beside};
ghost use Rattle.stuck.specs.Writing.{Arranged, Imaged, StuckAt, blocks_listed};

use crate::survivors::{block_mates, draw_colours, draw_places, survivors};
use crate::unit_walls::walls_of;
use adjacent::{Mates, mates_of};
use board::Board;
use groups::Grouping;
use planes::draw_mask;
use reasons::inside;
use shapes::connections::{joints, places};
use shapes::turned::turn_row;
use shapes::{Outline, joint_count, list_rows};

mod survivors; // survivors.rt: the origins at which a transform lies on one colour, and the blockers there
pub mod unit_walls; // unit_walls.rt: the walls of a potential unit, of those adjacent to it, and to the others

// Writes the blockers of the placements of the unit's images by the listed rows, with their origins at the cells of the
// groups in the list of mates, from the start of the memory; gives the next place. The planes of the colours, the mask
// of those origins and the places of the cells are drawn once; then each row's survivors are asked.
fn block_rows(
    memory: &mut [u16],
    h: usize,
    w: usize,
    colours: &[u8; Board::CELL_LIMIT],
    borders: &[u8; Board::BORDER_LIMIT],
    listed: &[u8],
    outline: &Outline,
    potential: &Grouping,
    mates: &Mates,
) -> usize
    requires { Rows listed.now × Drawn h w colours.now × Spotted outline.now × Jointed outline.now
        × Beside h w potential.now mates.now
        × Spare memory.old 0 }
    ensures { Wrote memory.old 0
        (blocks_listed (unclued h w colours.now) (states_in borders.now)
        (cells_in potential.now) (starts_in potential.now) (mates_in mates.now)
        (cell_spots outline.now) (joint_spots outline.now) listed.now) memory.new result }
{
    let mut same = [0u64; 192];
    draw_colours(h, w, colours, &mut same);
    let mut mask = [0u64; 33];
    draw_mask(h, w, potential, mates, 0, &mut mask);
    let mut spread = [0u16; Board::CELL_LIMIT];
    draw_places(h, w, &mut spread);
    let mut turned = [0u8; 4096];
    let mut left = [0u64; 32];
    let k = joint_count(outline);
    let mut at = 0;
    for row in listed {
        turn_row(usize::from(*row), outline, &mut turned);
        survivors(&same, &mask, h, &turned, k, &mut left);
        at = block_mates(
            memory, at, h, w, borders, &spread, &left, &turned, k, potential, mates,
        );
    }
    at
}

// Writes the reason of the unit u in the potential unit p from the start of the memory: the blockers of its placements,
// its Inside, and the walls of p. Gives the number of literals. The list of mates has the potential units adjacent to
// p, the outline is the unit's, and `listed` has the rows of its transforms.
fn write_unit(
    memory: &mut [u16],
    h: usize,
    w: usize,
    colours: &[u8; Board::CELL_LIMIT],
    borders: &[u8; Board::BORDER_LIMIT],
    units: &Grouping,
    potential: &Grouping,
    mates: &Mates,
    listed: &[u8],
    outline: &Outline,
    u: usize,
    p: usize,
) -> usize
    requires { Arranged h w colours.now borders.now units.now potential.now mates.now u p
        × Imaged h w colours.now borders.now units.now outline.now listed.now u
        × Spare memory.old 0 }
    ensures { (c : ℕ → Option ℕ) → Wrote memory.old 0
        (unit_reason (clued_by h w colours.now c) (states_in borders.now) u p)
        memory.new result }
{
    let blocked = block_rows(
        memory, h, w, colours, borders, listed, outline, potential, mates,
    );
    let inner = inside(memory, blocked, h, w, borders, units, u);
    walls_of(memory, inner, h, w, colours, borders, potential, p, mates)
}

// Writes the reason of the unit u in its potential unit from the start of the memory; gives the number of literals.
pub fn write_stuck(
    memory: &mut [u16],
    h: usize,
    w: usize,
    colours: &[u8; Board::CELL_LIMIT],
    borders: &[u8; Board::BORDER_LIMIT],
    units: &Grouping,
    potential: &Grouping,
    u: usize,
) -> usize
    requires { StuckAt h w colours.now borders.now units.now potential.now u
        × Spare memory.old 0 }
    ensures { (c : ℕ → Option ℕ) → Wrote memory.old 0
        (unit_reason (clued_by h w colours.now c) (states_in borders.now) u
        (potential_in (clued_by h w colours.now c) (states_in borders.now) u))
        memory.new result }
{
    let p = potential.group_of(units.cell_at(units.start_of(u)));
    let mut mates = [0u16; 1025];
    mates_of(h, w, colours, borders, potential, p, &mut mates);
    let mut outline = [0u16; 6146];
    places(units, u, w, &mut outline);
    joints(units, h, w, u, &mut outline);
    let listed = list_rows(units, h, w, u, &outline);
    write_unit(
        memory, h, w, colours, borders, units, potential, &mates, listed, &outline, u, p,
    )
}

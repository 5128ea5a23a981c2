// A unit's cells and connections, and the connections of its images.
ghost use Rattle.std.specs.Prelude.{◌≡◌, ◌+◌, ◌-◌, ◌*◌, ◌<◌, length, IfSome};
ghost use Rattle.rules.specs.Page.{◌⊕◌, opposite};
ghost use Rattle.rules.specs.Flat.{Sized, flat};
ghost use Rattle.rules.specs.Groups.{entry};
ghost use Rattle.rules.specs.Turns.{apply};
ghost use Rattle.rules.specs.Shapes.{connections_at};
ghost use Rattle.groups.specs.Grouping.{numbers_in, start_in, group_cells};
ghost use Rattle.shapes.specs.Rows.{turn_at};
ghost use Rattle.shapes.specs.Outlines.{cell_count};
ghost use Rattle.shapes.specs.Parts.{UnitPart, OutlinePlaced};
ghost use Rattle.shapes.specs.Joints.{joint_if, joined_to, JointRoom, Grown, OutlineJoined, JointIn};
ghost use Rattle.shapes.specs.Pairs.{point_of, SmallPair};
ghost use Rattle.shapes.specs.Spots.{joint_spot, UnitAt};

use crate::{Outline, Pair, apply, cell_count};
use groups::Grouping;

// Writes the rows and columns of the cells of unit `g` into an outline, and how many there are.
pub fn places(units: &Grouping, g: usize, w: usize, outline: &mut Outline)
    requires { UnitPart units.now g w × (length outline.old ≡ 6146) }
    ensures { OutlinePlaced w (group_cells units.now g) outline.new
        × (cell_count outline.new ≡ start_in units.now (g + 1) - start_in units.now g) }
{
    let width = w as u16;
    let cells = units.cells_of(g);
    for (i, &c) in cells.iter().enumerate() {
        outline[i] = c / width;
        outline[1024 + i] = c % width;
    }
    outline[6144] = cells.len() as u16;
}

// Writes the doubled place (y,x) as connection `k` of the outline, if there is a neighbour and it is of unit `g`. Gives
// the next number.
fn join(
    units: &Grouping,
    g: usize,
    to: Option<usize>,
    y: u16,
    x: u16,
    outline: &mut Outline,
    k: usize,
) -> usize
    requires { (length (numbers_in units.now) ≡ 1024) × IfSome to (λ c. c < 1024) × JointRoom outline.old k }
    ensures { Grown outline.old k
        (joint_if (joined_to (entry (numbers_in units.now)) g to) y x) outline.new result }
{
    let Some(c) = to else {
        return k;
    };
    if units.group_of(c) == g {
        outline[2048 + k] = y;
        outline[4096 + k] = x;
        k + 1
    } else {
        k
    }
}

// Writes the connections of the cell (y,x) of unit `g`, below then right, from number `k` on; gives the next number.
fn joints_at(
    units: &Grouping,
    h: usize,
    w: usize,
    g: usize,
    y: usize,
    x: usize,
    outline: &mut Outline,
    k: usize,
) -> usize
    requires { Sized h w × (length (numbers_in units.now) ≡ 1024) × (y < h) × (x < w)
        × JointRoom outline.old (k + 1) }
    ensures { Grown outline.old k
        (connections_at (flat h w) (entry (numbers_in units.now)) g (y * w + x)) outline.new result }
{
    let c = y * w + x;
    let row = 2 * y;
    let column = 2 * x;
    let below = (y + 1 < h).then_some(c + w);
    let right = (x + 1 < w).then_some(c + 1);
    let next = join(units, g, below, (row + 1) as u16, column as u16, outline, k);
    join(
        units,
        g,
        right,
        row as u16,
        (column + 1) as u16,
        outline,
        next,
    )
}

// Writes the connections of unit `g` into the outline of its cells, cell by cell, below then right, as doubled places
// of the page, and how many there are.
pub fn joints(units: &Grouping, h: usize, w: usize, g: usize, outline: &mut Outline)
    requires { UnitAt h w units.now g outline.old }
    ensures { UnitAt h w units.now g outline.new
        × OutlineJoined h w units.now g outline.new }
{
    let n = cell_count(outline);
    let mut k = 0;
    for i in 0..n {
        k = joints_at(
            units,
            h,
            w,
            g,
            usize::from(outline[i]),
            usize::from(outline[1024 + i]),
            outline,
            k,
        );
    }
    outline[6145] = k as u16;
}

// Connection `j` of the unit's image by a row whose first cell is the image `m`.
pub fn joint(row: usize, outline: &Outline, j: usize, m: Pair) -> Pair
    requires { (row < 8) × JointIn outline.now j × SmallPair m }
    ensures { point_of result ≡ apply (turn_at row) (joint_spot outline.now j)
        ⊕ (opposite (point_of m) ⊕ opposite (point_of m)) }
{
    let y = i32::from(outline[2048 + j]);
    let x = i32::from(outline[4096 + j]);
    apply(row, y, x) - m - m
}

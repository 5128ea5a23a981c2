// A unit's k-th listed transform, its cells and its connections, written into lent memory.
#![tactic(auto)]

ghost use Rattle.std.specs.Prelude.{◌≡◌, [], ◌∷◌, ◌+◌, ◌*◌, ◌≤◌, ◌<◌, length};
ghost use Rattle.std.proofs.lemmas.List.Edits.{sets};
ghost use Rattle.rules.specs.Page.{◌⊕◌, opposite};
ghost use Rattle.rules.specs.Flat.{Sized, flat};
ghost use Rattle.rules.specs.Codes.{states_in, unclued};
ghost use Rattle.rules.specs.Groups.{entry};
ghost use Rattle.rules.specs.Turns.{apply};
ghost use Rattle.rules.specs.Check.{transforms_of};
ghost use Rattle.rules.specs.Shapes.{shape_of, flat_transforms};
ghost use Rattle.groups.specs.Grouping.{numbers_in};
ghost use Rattle.shapes.specs.Joints.{OutlineJoined};
ghost use Rattle.shapes.specs.Pairs.{point_at, point_of, Small, SmallPair};
ghost use Rattle.shapes.specs.Rows.{turn_at, image, rows_of};
ghost use Rattle.shapes.specs.Outlines.{joint_count};
ghost use Rattle.shapes.specs.Images.{Jointed};
ghost use Rattle.shapes.specs.Spots.{joint_spots, UnitAt};
ghost use Rattle.transforms.specs.Transforms.{nothing, words, transformed, kth_answer, kth_memory, WrotePoints};
ghost use Rattle.transforms.specs.Transforms.{transform_of, memory_after};
ghost use Rattle.transforms.specs.Box.{box_at, reversed, of_image, box_cell, sweep, moved_back};

use board::{Board, Refusal};
use groups::{Grouping, Kind, groups_of};
use shapes::connections::{joint, joints, places};
use shapes::{
    Outline, Pair, Signs, cell_count, has_cell, joint_count, least, list_rows, signs_at, turn,
};

// What asking for a transform gives: how many transforms the unit has, and how many cells and connections the one
// asked for has. Each place takes two numbers of the lent memory, down and across: first the cells, sorted, with the
// first at (0,0), then the connections, in doubled coordinates.
#[derive(Clone, Copy)]
pub struct Transformed {
    pub listed: usize,
    pub cells: usize,
    pub connections: usize,
}

// The least memory that is lent: two numbers for each of 1,024 cells and 2,048 connections.
const ROOM: usize = 6144;

// The places of the box that every image of a page lies in: 66 rows of 66.
const BOX: usize = 4356;

// Writes a place from the number `at` on; gives the next number's place.
fn put(memory: &mut [i32], at: usize, p: Pair) -> usize
    requires { at + 2 ≤ length memory.old }
    ensures { WrotePoints memory.old at (point_of p ∷ []) memory.new result }
{
    memory[at] = p.y;
    memory[at + 1] = p.x;
    at + 2
}

// Place `i` of the box: rows and columns from -33 to 32.
fn box_place(i: usize) -> Pair
    requires { i < 4356 }
    ensures { (point_of result ≡ box_at i) × SmallPair result }
{
    Pair {
        y: (i / 66) as i32 - 33,
        x: (i % 66) as i32 - 33,
    }
}

// The row that leads back from where `s` leads: where the coordinates change places, so do their signs.
fn reversed(s: Signs) -> Signs
    ensures { result ≡ reversed s }
{
    if s.swap {
        Signs {
            swap: true,
            down: s.across,
            across: s.down,
        }
    } else {
        s
    }
}

// The place that a row of the table turns to (y,x).
fn apply_back(row: usize, y: i32, x: i32) -> Pair
    requires { (row < 8) × Small y × Small x }
    ensures { apply (turn_at row) (point_of result) ≡ point_at y x }
{
    turn(reversed(signs_at(row)), y, x)
}

// Whether the place `p` is a cell of the image of unit `g` by a row: whether the way back leads to a cell of the unit.
fn of_image(units: &Grouping, h: usize, w: usize, g: usize, row: usize, p: Pair) -> bool
    requires { (row < 8) × Sized h w × (length (numbers_in units.now) ≡ 1024) × SmallPair p }
    ensures { result ≡ of_image h w (entry (numbers_in units.now)) g row (point_of p) }
{
    let q = apply_back(row, p.y, p.x);
    has_cell(units, h, w, g, q.y, q.x)
}

// Writes place `i` of the box, shifted back by `m`, if it is a cell of the unit's image. Gives the next number's place.
fn put_cell(
    memory: &mut [i32],
    at: usize,
    units: &Grouping,
    h: usize,
    w: usize,
    g: usize,
    row: usize,
    m: Pair,
    i: usize,
) -> usize
    requires { (row < 8) × Sized h w × (length (numbers_in units.now) ≡ 1024) × SmallPair m × (i < 4356)
        × (at + 2 * length (box_cell h w (entry (numbers_in units.now)) g row (point_of m) i) ≤ length memory.old) }
    ensures { WrotePoints memory.old at
        (box_cell h w (entry (numbers_in units.now)) g row (point_of m) i) memory.new result }
{
    let p = box_place(i);
    if of_image(units, h, w, g, row, p) {
        put(memory, at, p - m)
    } else {
        at
    }
}

// Writes the cells of the unit's image by a row, in order, shifted back by `m`, from the start of the memory.
// Gives the next number's place.
fn put_cells(
    memory: &mut [i32],
    units: &Grouping,
    h: usize,
    w: usize,
    g: usize,
    row: usize,
    m: Pair,
) -> usize
    requires { (row < 8) × Sized h w × (length (numbers_in units.now) ≡ 1024) × SmallPair m
        × (2 * length (sweep h w (entry (numbers_in units.now)) g row (point_of m) 4356) ≤ length memory.old) }
    ensures { WrotePoints memory.old 0
        (sweep h w (entry (numbers_in units.now)) g row (point_of m) 4356) memory.new result }
{
    let mut at = 0;
    for i in 0..BOX {
        at = put_cell(memory, at, units, h, w, g, row, m, i);
    }
    at
}

// Writes the outline's connections, turned by a row and shifted back by twice `m`, from the number `start` on.
// Gives the next number's place.
fn put_joints(memory: &mut [i32], start: usize, row: usize, outline: &Outline, m: Pair) -> usize
    requires { (row < 8) × Jointed outline.now × SmallPair m
        × (start + 2 * joint_count outline.now ≤ length memory.old) }
    ensures { WrotePoints memory.old start
        (moved_back row (point_of m) (joint_spots outline.now)) memory.new result }
{
    let mut at = start;
    for j in 0..joint_count(outline) {
        at = put(memory, at, joint(row, outline, j, m));
    }
    at
}

// Writes the image of unit `g`, whose outline is given, by a row: its cells, then its connections.
fn put_image(
    memory: &mut [i32],
    units: &Grouping,
    h: usize,
    w: usize,
    g: usize,
    outline: &Outline,
    row: usize,
)
    requires { (row < 8) × UnitAt h w units.now g outline.now × OutlineJoined h w units.now g outline.now
        × (6144 ≤ length memory.old) }
    ensures { memory.new ≡ sets memory.old 0
        (words (image row (shape_of (flat h w) (entry (numbers_in units.now)) g))) }
{
    let m = least(row, outline);
    let at = put_cells(memory, units, h, w, g, row, m);
    put_joints(memory, at, row, outline, m);
}

// No transform.
fn none(listed: usize) -> Transformed
    ensures { result ≡ transformed listed nothing }
{
    Transformed {
        listed,
        cells: 0,
        connections: 0,
    }
}

// Writes transform `k` of unit `g`, whose outline and whose listed rows are given.
fn put_listed(
    memory: &mut [i32],
    units: &Grouping,
    h: usize,
    w: usize,
    g: usize,
    outline: &Outline,
    listed: &[u8],
    k: usize,
) -> Transformed
    requires { UnitAt h w units.now g outline.now × OutlineJoined h w units.now g outline.now
        × (listed.now ≡ rows_of (shape_of (flat h w) (entry (numbers_in units.now)) g))
        × (6144 ≤ length memory.old) }
    ensures { (result ≡ kth_answer (flat_transforms (shape_of (flat h w) (entry (numbers_in units.now)) g)) k)
        × (memory.new ≡ kth_memory (flat_transforms (shape_of (flat h w)
        (entry (numbers_in units.now)) g)) k memory.old) }
{
    if listed.len() <= k {
        return none(listed.len());
    }
    put_image(memory, units, h, w, g, outline, usize::from(listed[k]));
    Transformed {
        listed: listed.len(),
        cells: cell_count(outline),
        connections: joint_count(outline),
    }
}

// Writes transform `k` of unit `u` on a page of h rows and w columns.
fn put_transform(
    memory: &mut [i32],
    h: usize,
    w: usize,
    colours: &[u8; Board::CELL_LIMIT],
    borders: &[u8; Board::BORDER_LIMIT],
    u: usize,
    k: usize,
) -> Transformed
    requires { Sized h w × (6144 ≤ length memory.old) }
    ensures { (result ≡ kth_answer (transforms_of (unclued h w colours.now)
        (states_in borders.now) u) k)
        × (memory.new ≡ kth_memory (transforms_of (unclued h w colours.now)
        (states_in borders.now) u) k memory.old) }
{
    let units = groups_of(h, w, colours, borders, Kind::Units);
    if units.count_of() <= u {
        return none(0);
    }
    let mut outline = [0u16; 6146];
    places(&units, u, w, &mut outline);
    joints(&units, h, w, u, &mut outline);
    let listed = list_rows(&units, h, w, u, &outline);
    put_listed(memory, &units, h, w, u, &outline, listed, k)
}

// Transform `k` of unit `u` of a board, counted from 0, written from the start of the memory. Refused, and none, where
// the board is alien or the memory has under 6,144 numbers. None where no unit has the number, or no transform.
pub fn transform(b: Board, u: usize, k: usize, memory: &mut [i32]) -> Result<Transformed, Refusal>
    ensures { (result ≡ transform_of b u k (length memory.old))
        × (memory.new ≡ memory_after b u k memory.old) }
{
    if b.alien() {
        return Err(Refusal::Alien);
    }
    if memory.len() < ROOM {
        return Err(Refusal::Short);
    }
    Ok(put_transform(memory, b.height, b.width, &b.colours, &b.borders, u, k))
}

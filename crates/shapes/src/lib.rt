// The eight rows of signs and swaps, a unit's connections, and which rows are listed.
#![tactic(auto)]

ghost use Rattle.std.specs.Prelude.{◌≡◌, ◌+◌, ◌-◌, ◌*◌, ◌<◌, length, get_or, pos};
ghost use Rattle.rules.specs.Page.{◌⊕◌, opposite};
ghost use Rattle.rules.specs.Flat.{Sized, flat};
ghost use Rattle.rules.specs.Groups.{entry};
ghost use Rattle.rules.specs.Turns.{apply};
ghost use Rattle.rules.specs.Shapes.{shape_of};
ghost use Rattle.groups.specs.Grouping.{numbers_in};
ghost use Rattle.shapes.specs.Rows.{turn_at, fixes, flip_listed, rows_by, rows_of};
ghost use Rattle.shapes.specs.Pairs.{point_at, point_of, Small, SmallPair, SumFits, DifferenceFits, BothSigns, turn_by};
ghost use Rattle.shapes.specs.Pairs.{signs_of};
ghost use Rattle.shapes.specs.Outlines.{rows_in, columns_in, cell_count, joint_count};
ghost use Rattle.shapes.specs.Spots.{place_at, cell_spots, least_image, cell_in, has_cell, within, SpotIn, Spotted};
ghost use Rattle.shapes.specs.Spots.{UnitAt};

use groups::Grouping;
use std::ops::{Add, Sub};

pub mod connections; // connections.rt: a unit's cells and connections, and those of its images
pub mod turned; // turned.rt: the connections of a unit's image, raised

// A unit's outline in one array: from 0 the rows of its cells, from 1,024 their columns, from 2,048 how far down its
// connections stand, doubled, from 4,096 how far across, then how many cells there are, and in the last place how many
// connections.
pub type Outline = [u16; 6146];

// A place on a flat page, down and across, in order by row and then by column.
#[derive(Clone, Copy, PartialEq, Eq, PartialOrd, Ord)]
pub struct Pair {
    pub y: i32,
    pub x: i32,
}

// The place shifted by `v`.
impl Add for Pair {
    type Output = Self;

    ghost can_add = { SumFits };

    ghost add_gives = { λ p v r. point_of r ≡ point_of p ⊕ point_of v };

    fn add(self, v: Self) -> Self {
        Self {
            y: self.y + v.y,
            x: self.x + v.x,
        }
    }
}

// The place shifted back by `v`.
impl Sub for Pair {
    type Output = Self;

    ghost can_sub = { DifferenceFits };

    ghost sub_gives = { λ p v r. point_of r ≡ point_of p ⊕ opposite (point_of v) };

    fn sub(self, v: Self) -> Self {
        Self {
            y: self.y - v.y,
            x: self.x - v.x,
        }
    }
}

// A row of the table: whether the coordinates change places, and the signs of the new ones, 1 or -1.
#[derive(Clone, Copy, PartialEq, Eq)]
pub struct Signs {
    pub swap: bool,
    pub down: i8,
    pub across: i8,
}

// "Every transform is read from eight rows of signs and swaps": the one table, each row with what it makes of (y,x).
// `signs_at` alone reads it, and its contract says that the rows are those of the definition's `flat_table`. So the
// composition rules, which are tested over that table, are rules of this one: `compose-rows` (specs/TableLaws.antt) and
// `table-rules` (laws/proofs/TableRules.antt).
const TABLE: [Signs; 8] = [
    Signs {
        swap: false,
        down: 1,
        across: 1, // (y,x)
    },
    Signs {
        swap: false,
        down: -1,
        across: -1, // (-y,-x)
    },
    Signs {
        swap: true,
        down: -1,
        across: 1, // (-x,y)
    },
    Signs {
        swap: true,
        down: 1,
        across: -1, // (x,-y)
    },
    Signs {
        swap: false,
        down: -1,
        across: 1, // (-y,x)
    },
    Signs {
        swap: false,
        down: 1,
        across: -1, // (y,-x)
    },
    Signs {
        swap: true,
        down: 1,
        across: 1, // (x,y)
    },
    Signs {
        swap: true,
        down: -1,
        across: -1, // (-x,-y)
    },
];

// Reads a row of the table, which is laid out for it: a loop reads its row once, before it begins.
pub fn signs_at(row: usize) -> Signs
    requires { row < 8 }
    ensures { result ≡ signs_of (turn_at row) }
{
    TABLE[row]
}

// The place (y,x), its coordinates swapped or not, the new ones times a sign.
pub fn turn(s: Signs, y: i32, x: i32) -> Pair
    requires { BothSigns s × Small y × Small x }
    ensures { result ≡ turn_by s y x }
{
    let down = i32::from(s.down);
    let across = i32::from(s.across);
    if s.swap {
        Pair {
            y: down * x,
            x: across * y,
        }
    } else {
        Pair {
            y: down * y,
            x: across * x,
        }
    }
}

// The place (y,x) turned by a row of the table.
pub fn apply(row: usize, y: i32, x: i32) -> Pair
    requires { (row < 8) × Small y × Small x }
    ensures { point_of result ≡ apply (turn_at row) (point_at y x) }
{
    turn(signs_at(row), y, x)
}

// How many cells the outline has. This and the next stay two functions: one would take the place in the array.
pub fn cell_count(outline: &Outline) -> usize
    ensures { result ≡ cell_count outline.now }
{
    usize::from(outline[6144])
}

// How many connections it has.
pub fn joint_count(outline: &Outline) -> usize
    ensures { result ≡ joint_count outline.now }
{
    usize::from(outline[6145])
}

// The image of the outline's cell `i` by the row `s` of the table.
fn moved(s: Signs, outline: &Outline, i: usize) -> Pair
    requires { BothSigns s × SpotIn outline.now i }
    ensures { result ≡ turn_by s (pos (get_or (rows_in outline.now) i 0))
        (pos (get_or (columns_in outline.now) i 0)) }
{
    turn(s, i32::from(outline[i]), i32::from(outline[1024 + i]))
}

// The first in order of the images of the outline's cells by a row of the table.
pub fn least(row: usize, outline: &Outline) -> Pair
    requires { (row < 8) × Spotted outline.now }
    ensures { point_of result ≡ least_image row (cell_spots outline.now) }
{
    let n = cell_count(outline);
    let s = signs_at(row);
    let mut best = moved(s, outline, 0);
    for i in 1..n {
        best = best.min(moved(s, outline, i));
    }
    best
}

// Whether (y,x) is a cell of the page and of unit `g`.
fn cell_in(units: &Grouping, h: usize, w: usize, g: usize, y: usize, x: usize) -> bool
    requires { Sized h w × (length (numbers_in units.now) ≡ 1024) }
    ensures { result ≡ cell_in h w (entry (numbers_in units.now)) g y x }
{
    y < h && x < w && units.group_of(y * w + x) == g
}

// The same of signed coordinates.
pub fn has_cell(units: &Grouping, h: usize, w: usize, g: usize, y: i32, x: i32) -> bool
    requires { Sized h w × (length (numbers_in units.now) ≡ 1024) }
    ensures { result ≡ has_cell h w (entry (numbers_in units.now)) g (point_at y x) }
{
    y >= 0 && x >= 0 && cell_in(units, h, w, g, y as usize, x as usize)
}

// The same of the place `p` shifted by `v`.
fn lands(units: &Grouping, h: usize, w: usize, g: usize, p: Pair, v: Pair) -> bool
    requires { Sized h w × (length (numbers_in units.now) ≡ 1024) × SmallPair p × SmallPair v }
    ensures { result ≡ has_cell h w (entry (numbers_in units.now)) g (point_of p ⊕ point_of v) }
{
    let q = p + v;
    has_cell(units, h, w, g, q.y, q.x)
}

// The shift that lays the place `m` on (y,x).
fn shift(m: Pair, y: u16, x: u16) -> Pair
    requires { SmallPair m × (y < 32) × (x < 32) }
    ensures { point_of result ≡ opposite (point_of m) ⊕ place_at y x }
{
    Pair {
        y: i32::from(y),
        x: i32::from(x),
    } - m
}

// Whether every image of the outline's cells by a row, shifted by `v`, is a cell of unit `g`.
fn within(
    units: &Grouping,
    h: usize,
    w: usize,
    g: usize,
    outline: &Outline,
    row: usize,
    v: Pair,
) -> bool
    requires { (row < 8) × SmallPair v × UnitAt h w units.now g outline.now }
    ensures { result ≡ within h w (entry (numbers_in units.now)) g outline.now row
        (point_of v) }
{
    let n = cell_count(outline);
    let s = signs_at(row);
    for i in 0..n {
        if !lands(units, h, w, g, moved(s, outline, i), v) {
            return false;
        }
    }
    true
}

// Whether a row leaves the shape of unit `g` as it is: every image, laid on the first cell, is a cell of it.
pub fn fixes(units: &Grouping, h: usize, w: usize, g: usize, outline: &Outline, row: usize) -> bool
    requires { (row < 8) × UnitAt h w units.now g outline.now }
    ensures { result ≡ fixes (shape_of (flat h w) (entry (numbers_in units.now)) g) row }
{
    let m = least(row, outline);
    let v = shift(m, outline[0], outline[1024]);
    within(units, h, w, g, outline, row, v)
}

// Whether one of the four reflections leaves the shape of unit `g` as it is: then no flip is listed.
fn flip_listed(units: &Grouping, h: usize, w: usize, g: usize, outline: &Outline) -> bool
    requires { UnitAt h w units.now g outline.now }
    ensures { result ≡ flip_listed (shape_of (flat h w) (entry (numbers_in units.now)) g) }
{
    for row in 4..8 {
        if fixes(units, h, w, g, outline, row) {
            return true;
        }
    }
    false
}

// The listed rows of the table, by whether the half and the quarter leave the shape, and whether a reflection does.
fn rows_by(half: bool, quarter: bool, listed: bool) -> &'static [u8]
    ensures { result.now ≡ rows_by half quarter listed }
{
    match (half, quarter, listed) {
        (true, true, true) => &[0],
        (true, true, false) => &[0, 4],
        (true, false, true) => &[0, 3],
        (true, false, false) => &[0, 3, 4, 7],
        (false, _, true) => &[0, 1, 2, 3],
        (false, _, false) => &[0, 1, 2, 3, 4, 5, 6, 7],
    }
}

// The rows by which the transforms of unit `g` are listed, in order.
pub fn list_rows(units: &Grouping, h: usize, w: usize, g: usize, outline: &Outline) -> &'static [u8]
    requires { UnitAt h w units.now g outline.now }
    ensures { result.now ≡ rows_of (shape_of (flat h w) (entry (numbers_in units.now)) g) }
{
    let half = fixes(units, h, w, g, outline, 1);
    let quarter = half && fixes(units, h, w, g, outline, 3);
    rows_by(half, quarter, flip_listed(units, h, w, g, outline))
}

// The connections of a unit's image, raised: what a placement of it is read by.
ghost use Rattle.std.specs.Prelude.{◌≡◌, ℕ, ◌+◌, ◌<◌, ◌≤◌, get_or, length};
ghost use Rattle.std.specs.Int.Signed.{mag};
ghost use Rattle.lists.specs.Sections.{section, Only};
ghost use Rattle.rules.specs.Turns.{apply};
ghost use Rattle.shapes.specs.Images.{raise_of, image_joints, Jointed};
ghost use Rattle.shapes.specs.Outlines.{down_in, across_in, joint_count};
ghost use Rattle.shapes.specs.Raising.{Lifts, Raised, Turnable, lift_of, moved_by, raised, spelled, turn_of};
ghost use Rattle.shapes.specs.Spots.{Spotted, cell_spots, joint_spots};

use crate::{Outline, joint_count, least, signs_at};

// The connections of a unit's image in one array, doubled, shifted so that the first cell stands at (0,0), and raised
// by 64: from 0 how far down they stand, from 2,048 how far across.
pub type Turned = [u8; 4096];

// A coordinate turned, shifted and raised: `base` is the shift, raised by 64. The flag is the sign of the row, as the
// definition `lift_of` has it; a closure in its place would need a contract of its own in `lift_all`.
fn lift(minus: bool, k: u16, base: usize) -> u8
    requires { Lifts minus base k × (base < 128) }
    ensures { result ≡ lift_of minus base k }
{
    let a = usize::from(k);
    (if minus { base - a } else { base + a }) as u8
}

// The outline's coordinates from the place `from` on, turned, shifted and raised, written from the place `to` on.
fn lift_all(
    outline: &Outline,
    from: usize,
    minus: bool,
    base: usize,
    turned: &mut Turned,
    to: usize,
)
    requires { (from + 2048 ≤ 6144) × (to + 2048 ≤ 4096) × (joint_count outline.now ≤ 2048) × (base < 128)
        × ((i : ℕ) → i < joint_count outline.now → Lifts minus base (get_or (section from 2048 outline.now) i 0))
        × (length turned.old ≡ 4096) }
    ensures { Only to (to + 2048) turned.old turned.new
        × ((i : ℕ) → i < joint_count outline.now → get_or (section to 2048 turned.new) i 0
        ≡ lift_of minus base (get_or (section from 2048 outline.now) i 0)) }
{
    let n = joint_count(outline);
    for i in 0..n {
        turned[to + i] = lift(minus, outline[from + i], base);
    }
}

// The outline's connections, their coordinates swapped or not, the new ones with their signs changed or not, and
// shifted by what y and x stand for.
fn turn_joints(
    outline: &Outline,
    swap: bool,
    upward: bool,
    leftward: bool,
    y: usize,
    x: usize,
    turned: &mut Turned,
)
    requires { Turnable swap upward leftward y x (down_in outline.now) (across_in outline.now)
        (joint_count outline.now) × (length turned.old ≡ 4096) }
    ensures { Raised turned.new (joint_count outline.now)
        × (spelled turned.new (joint_count outline.now)
        ≡ moved_by (apply (turn_of swap upward leftward)) (raised y x) (joint_spots outline.now))
        × (length turned.new ≡ 4096) }
{
    let (rows, columns) = if swap { (4096, 2048) } else { (2048, 4096) };
    lift_all(outline, rows, upward, y, turned, 0);
    lift_all(outline, columns, leftward, x, turned, 2048);
}

// The shift back by twice `v`, raised by 64.
fn raise(v: i32) -> usize
    requires { mag v < 33 }
    ensures { result ≡ raise_of v }
{
    (64 - (v + v)) as usize
}

// Writes the connections of the unit's image by a row of the table, raised.
pub fn turn_row(row: usize, outline: &Outline, turned: &mut Turned)
    requires { (row < 8) × Spotted outline.now × Jointed outline.now × (length turned.old ≡ 4096) }
    ensures { Raised turned.new (joint_count outline.now)
        × (spelled turned.new (joint_count outline.now)
        ≡ image_joints row (cell_spots outline.now) (joint_spots outline.now))
        × (length turned.new ≡ 4096) }
{
    let m = least(row, outline);
    let y = raise(m.y);
    let x = raise(m.x);
    let s = signs_at(row);
    turn_joints(outline, s.swap, s.down < 0, s.across < 0, y, x, turned);
}

// Whether a unit fits beside its potential unit.
ghost use Rattle.std.specs.Prelude.{◌≡◌, true, List, [], ℕ, ◌<◌, length, get_or, MatchOption};
ghost use Rattle.lists.specs.Lists.{◌∈◌};
ghost use Rattle.rules.specs.Check.{mates};
ghost use Rattle.rules.specs.Codes.{states_in, unclued};
ghost use Rattle.rules.specs.Flat.{flat};
ghost use Rattle.rules.specs.Groups.{entry};
ghost use Rattle.rules.specs.Shapes.{shape_of};
ghost use Rattle.groups.specs.Grouping.{numbers_in, cells_in, starts_in, start_in, count_in};
ghost use Rattle.shapes.specs.Images.{Jointed};
ghost use Rattle.shapes.specs.Spots.{cell_spots, joint_spots, Spotted};
ghost use Rattle.adjacent.specs.Homes.{UnitIn, Home, home_in};
ghost use Rattle.fitting.specs.Fitting.{fits_turned, fits_rows};
ghost use Rattle.fitting.specs.Held.{Nearby, Adjoined, Held, HeldOf};

use crate::images::some_row_fits;
use adjacent::{mates_of, some_mate};
use groups::Grouping;
use planes::{draw_mask, draw_planes};
use shapes::Outline;
use shapes::connections::{joints, places};
use shapes::turned::{Turned, turn_row};

// The potential unit of unit `u`: that of its first cell.
pub fn home_in(units: &Grouping, potential: &Grouping, u: usize) -> usize
    requires { (u < 1024) × (start_in units.now u < 1024)
        × (get_or (cells_in units.now) (start_in units.now u) 0 < 1024) }
    ensures { result ≡ home_in units.now potential.now u }
{
    potential.group_of(units.cell_at(units.start_of(u)))
}

// One of the potential units adjacent to potential unit `p`, if there is one. `near` keeps it as a number, raised by 1
// and 0 where none was asked for: so memory that is made 0 at once has none.
pub fn near_mate(
    h: usize,
    w: usize,
    colours: &[u8; 1024],
    borders: &[u8; 1984],
    potential: &Grouping,
    p: usize,
    near: &mut [u16; 1024],
) -> Option<usize>
    requires { Home h w colours.now borders.now potential.now p
        × Nearby h w colours.now borders.now near.old }
    ensures { MatchOption result (mates (unclued h w colours.now) (states_in borders.now) p ≡ [])
        (λ q. q ∈ mates (unclued h w colours.now) (states_in borders.now) p)
        × Nearby h w colours.now borders.now near.new }
{
    let kept = usize::from(near[p]);
    if 0 < kept {
        return Some(kept - 1);
    }
    let q = some_mate(h, w, colours, borders, potential, p)?;
    near[p] = (q + 1) as u16;
    Some(q)
}

// Whether each potential unit has an adjacent one. `near` keeps those that were found.
pub fn all_near(
    h: usize,
    w: usize,
    colours: &[u8; 1024],
    borders: &[u8; 1984],
    potential: &Grouping,
    near: &mut [u16; 1024],
) -> bool
    requires { ((p : ℕ) → p < count_in potential.now → Home h w colours.now borders.now potential.now p)
        × Nearby h w colours.now borders.now near.old }
    ensures { (result ≡ true → Adjoined h w colours.now borders.now
        (count_in potential.now))
        × Nearby h w colours.now borders.now near.new }
{
    for p in 0..potential.count_of() {
        if near_mate(h, w, colours, borders, potential, p, near).is_none() {
            return false;
        }
    }
    true
}

// Makes planes and mask those of the page and of the potential unit `p`.
fn prepare(
    h: usize,
    w: usize,
    colours: &[u8; 1024],
    borders: &[u8; 1984],
    potential: &Grouping,
    p: usize,
    planes: &mut [u64; 192],
    mask: &mut [u64; 33],
)
    requires { Home h w colours.now borders.now potential.now p
        × Held h w colours.now borders.now potential.now planes.old mask.old }
    ensures { HeldOf h w colours.now borders.now potential.now p
        planes.new mask.new }
{
    let name = mask[32];
    if name == p as u64 + 1 {
        return;
    }
    if name == 0 {
        draw_planes(h, w, colours, borders, planes);
    }
    let mut list = [0u16; 1025];
    mates_of(h, w, colours, borders, potential, p, &mut list);
    draw_mask(h, w, potential, &list, p as u64 + 1, mask);
}

// Memory that is kept from unit to unit: a unit's outline, the connections of one of its images, the planes of the page
// and a mask of origins.
#[derive(Drop)]
pub struct Scratch {
    pub outline: Outline,
    pub turned: Turned,
    pub planes: [u64; 192],
    pub mask: [u64; 33],
}

impl Scratch {
    // Whether one of the eight images of the unit of the outline fits at a cell of one of the potential units adjacent
    // to potential unit `p`.
    fn written_fits(
        &mut self,
        h: usize,
        w: usize,
        colours: &[u8; 1024],
        borders: &[u8; 1984],
        potential: &Grouping,
        p: usize,
    ) -> bool
        requires { Home h w colours.now borders.now potential.now p
            × Spotted self.old.outline × Jointed self.old.outline
            × Held h w colours.now borders.now potential.now self.old.planes self.old.mask }
        ensures { (result ≡ fits_rows (unclued h w colours.now) (states_in borders.now)
            (cells_in potential.now) (starts_in potential.now)
            (mates (unclued h w colours.now) (states_in borders.now) p)
            (cell_spots self.old.outline) (joint_spots self.old.outline))
            × Held h w colours.now borders.now potential.now self.new.planes self.new.mask }
    {
        turn_row(0, &self.outline, &mut self.turned);
        prepare(
            h,
            w,
            colours,
            borders,
            potential,
            p,
            &mut self.planes,
            &mut self.mask,
        );
        some_row_fits(h, &self.planes, &self.mask, &self.outline, &mut self.turned)
    }

    // Whether a listed transform of unit `g` fits at a cell of one of the potential units adjacent to potential unit
    // `p`. All eight rows of the table are tried: one that is not listed gives the cells and connections of one that
    // is.
    pub fn unit_fits(
        &mut self,
        h: usize,
        w: usize,
        colours: &[u8; 1024],
        borders: &[u8; 1984],
        units: &Grouping,
        g: usize,
        potential: &Grouping,
        p: usize,
    ) -> bool
        requires { Home h w colours.now borders.now potential.now p × UnitIn h w units.now g
            × Held h w colours.now borders.now potential.now self.old.planes self.old.mask }
        ensures { (result ≡ fits_turned (unclued h w colours.now) (states_in borders.now)
            (cells_in potential.now) (starts_in potential.now)
            (mates (unclued h w colours.now) (states_in borders.now) p)
            (shape_of (flat h w) (entry (numbers_in units.now)) g))
            × Held h w colours.now borders.now potential.now self.new.planes self.new.mask }
    {
        places(units, g, w, &mut self.outline);
        joints(units, h, w, g, &mut self.outline);
        self.written_fits(h, w, colours, borders, potential, p)
    }
}

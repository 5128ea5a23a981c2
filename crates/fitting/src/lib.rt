// Step 3 of the check: the first unit for which no placement fits.
#![tactic(auto)]

mod copies; // copies.rt: whether the unit itself, shifted, fits at one of the first cells of a potential unit
mod unit; // unit.rt: whether a unit fits beside its potential unit
mod images; // images.rt: the eight images of a unit, at the origins of a mask
mod singles; // singles.rt: units of one cell

ghost use Rattle.std.specs.Prelude.{◌≡◌, true, ◌<◌};
ghost use Rattle.rules.specs.Codes.{states_in, unclued};
ghost use Rattle.groups.specs.Grouping.{count_in};
ghost use Rattle.adjacent.specs.Homes.{Sorted};
ghost use Rattle.fitting.specs.Held.{Nearby, Held};
ghost use Rattle.fitting.specs.FirstStuck.{Passed, fits_unit, first_fail};

use crate::copies::copy_fits_soon;
use crate::singles::after_singles;
use crate::unit::{Scratch, home_in, near_mate};
use groups::Grouping;

// Whether a placement of unit `u` fits: none does where its potential unit has no adjacent one; with one, a unit of one
// cell fits, which has no connections. On most boards the unit itself, shifted, fits at one of the first cells of that
// one. `near` is kept from unit to unit too.
fn fits_at(
    h: usize,
    w: usize,
    colours: &[u8; 1024],
    borders: &[u8; 1984],
    units: &Grouping,
    potential: &Grouping,
    u: usize,
    near: &mut [u16; 1024],
    scratch: &mut Scratch,
) -> bool
    requires { Sorted h w colours.now borders.now units.now potential.now
        × (u < count_in units.now)
        × Nearby h w colours.now borders.now near.old
        × Held h w colours.now borders.now potential.now scratch.old.planes scratch.old.mask }
    ensures { (result ≡ fits_unit (unclued h w colours.now) (states_in borders.now) u)
        × Nearby h w colours.now borders.now near.new
        × Held h w colours.now borders.now potential.now scratch.new.planes scratch.new.mask }
{
    let p = home_in(units, potential, u);
    let Some(q) = near_mate(h, w, colours, borders, potential, p, near) else {
        return false;
    };
    let single = units.cells_of(u).len() == 1;
    single
        || copy_fits_soon(h, w, colours, borders, units, u, potential, q)
        || scratch.unit_fits(h, w, colours, borders, units, u, potential, p)
}

// The first unit for which no placement fits, if there is one and none is before `from`.
fn stuck_from(
    h: usize,
    w: usize,
    colours: &[u8; 1024],
    borders: &[u8; 1984],
    units: &Grouping,
    potential: &Grouping,
    from: usize,
    near: &mut [u16; 1024],
) -> Option<usize>
    requires { Sorted h w colours.now borders.now units.now potential.now
        × Passed (fits_unit (unclued h w colours.now) (states_in borders.now)) (count_in units.now) from
        × Nearby h w colours.now borders.now near.old }
    ensures { result ≡ first_fail (fits_unit (unclued h w colours.now) (states_in borders.now))
        (count_in units.now) }
{
    let mut scratch = Scratch {
        outline: [0; 6146],
        turned: [0; 4096],
        planes: [0; 192],
        mask: [0; 33],
    };
    for u in from..units.count_of() {
        if !fits_at(
            h,
            w,
            colours,
            borders,
            units,
            potential,
            u,
            near,
            &mut scratch,
        ) {
            return Some(u);
        }
    }
    None
}

// The first unit for which no placement fits, if there is one. The memory for a unit of more than one cell is made at
// the first of them.
pub fn first_stuck(
    h: usize,
    w: usize,
    colours: &[u8; 1024],
    borders: &[u8; 1984],
    units: &Grouping,
    potential: &Grouping,
) -> Option<usize>
    requires { Sorted h w colours.now borders.now units.now potential.now }
    ensures { result ≡ first_fail (fits_unit (unclued h w colours.now) (states_in borders.now))
        (count_in units.now) }
{
    let mut near = [0u16; 1024];
    let u = after_singles(h, w, colours, borders, units, potential, &mut near);
    if units.count_of() <= u {
        return None;
    }
    stuck_from(h, w, colours, borders, units, potential, u, &mut near)
}

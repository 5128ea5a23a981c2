// Units of one cell, which are passed before any memory for larger ones is made.
ghost use Rattle.std.specs.Prelude.{◌≡◌, true, ◌<◌};
ghost use Rattle.rules.specs.Codes.{states_in, unclued};
ghost use Rattle.groups.specs.Grouping.{count_in};
ghost use Rattle.adjacent.specs.Homes.{Sorted};
ghost use Rattle.fitting.specs.Held.{Nearby, Adjoined};
ghost use Rattle.fitting.specs.FirstStuck.{Passed, fits_unit};

use crate::unit::{all_near, home_in, near_mate};
use groups::Grouping;

// Whether unit `u` has one cell, and its potential unit an adjacent one: then it fits. Where `sure`, every potential
// unit is known to have one.
fn single_fits(
    h: usize,
    w: usize,
    colours: &[u8; 1024],
    borders: &[u8; 1984],
    units: &Grouping,
    potential: &Grouping,
    u: usize,
    sure: bool,
    near: &mut [u16; 1024],
) -> bool
    requires { Sorted h w colours.now borders.now units.now potential.now
        × (u < count_in units.now)
        × (sure ≡ true → Adjoined h w colours.now borders.now (count_in potential.now))
        × Nearby h w colours.now borders.now near.old }
    ensures { (result ≡ true
        → fits_unit (unclued h w colours.now) (states_in borders.now) u ≡ true)
        × Nearby h w colours.now borders.now near.new }
{
    let single = units.cells_of(u).len() == 1;
    single
        && (sure
            || near_mate(
                h,
                w,
                colours,
                borders,
                potential,
                home_in(units, potential, u),
                near,
            )
            .is_some())
}

// How many of the units are passed at once: they stand before the first that has more than one cell or whose
// potential unit has no adjacent one. If each potential unit has one, a unit's size alone is looked at.
pub fn after_singles(
    h: usize,
    w: usize,
    colours: &[u8; 1024],
    borders: &[u8; 1984],
    units: &Grouping,
    potential: &Grouping,
    near: &mut [u16; 1024],
) -> usize
    requires { Sorted h w colours.now borders.now units.now potential.now
        × Nearby h w colours.now borders.now near.old }
    ensures { Passed (fits_unit (unclued h w colours.now) (states_in borders.now))
        (count_in units.now) result
        × Nearby h w colours.now borders.now near.new }
{
    let sure = all_near(h, w, colours, borders, potential, near);
    let count = units.count_of();
    for u in 0..count {
        if !single_fits(h, w, colours, borders, units, potential, u, sure, near) {
            return u;
        }
    }
    count
}

// Whether the unit itself, shifted, fits at one of the first cells of a potential unit. This is asked of the unit's
// list of cells, before anything is written.
ghost use Rattle.std.specs.Prelude.{◌≡◌, true, ◌&&◌, cond, ◌+◌, ◌*◌, ◌%◌, ◌<◌, ◌≤◌, eqb, get_or};
ghost use Rattle.rules.specs.Codes.{states_in, unclued};
ghost use Rattle.rules.specs.Flat.{flat};
ghost use Rattle.rules.specs.Groups.{entry};
ghost use Rattle.rules.specs.Shapes.{shape_of};
ghost use Rattle.groups.specs.Grouping.{numbers_in, cells_in, starts_in};
ghost use Rattle.groups.specs.Pages.{Drawn};
ghost use Rattle.reasons.specs.Arrays.{Cells};
ghost use Rattle.adjacent.specs.Homes.{UnitIn};
ghost use Rattle.planes.specs.Placing.{read_raised, reading_of, is_clear, fits_of};
ghost use Rattle.planes.specs.Laying.{fits_among};
ghost use Rattle.fitting.specs.Copies.{Shift, soon_in, cell_clear};

use groups::Grouping;
use planes::connection::{is_clear, read_place};

// Whether the raised doubled place (y, x) is clear, if `on` and cell `to` is of unit `g`: then a connection is there.
fn joint_clear(
    h: usize,
    w: usize,
    colours: &[u8; 1024],
    borders: &[u8; 1984],
    units: &Grouping,
    g: usize,
    on: bool,
    to: usize,
    y: usize,
    x: usize,
) -> bool
    requires { Drawn h w colours.now × (on ≡ true → to < 1024) × (1 ≤ y % 2 + x % 2) × (y < 256) × (x < 256) }
    ensures { result ≡ cond (on && eqb (entry (numbers_in units.now) to) g)
        (is_clear (reading_of (unclued h w colours.now) (states_in borders.now)
        (read_raised h w y x))) true }
{
    let joined = on && units.group_of(to) == g;
    !joined || is_clear(read_place(h, w, colours, borders, y, x))
}

// Whether the connections of cell `c` of unit `g`, below then right, are clear where the unit is shifted by (y, x),
// which is doubled and raised.
fn cell_clear(
    h: usize,
    w: usize,
    colours: &[u8; 1024],
    borders: &[u8; 1984],
    units: &Grouping,
    g: usize,
    c: usize,
    y: usize,
    x: usize,
) -> bool
    requires { Drawn h w colours.now × (c < h * w) × Shift y x }
    ensures { result ≡ cell_clear h w colours.now (states_in borders.now)
        (entry (numbers_in units.now)) g y x c }
{
    let row = c / w;
    let column = c % w;
    let down = 2 * row + y;
    let across = 2 * column + x;
    let below = row + 1 < h;
    let right = column + 1 < w;
    joint_clear(
        h,
        w,
        colours,
        borders,
        units,
        g,
        below,
        c + w,
        down + 1,
        across,
    ) && joint_clear(
        h,
        w,
        colours,
        borders,
        units,
        g,
        right,
        c + 1,
        down,
        across + 1,
    )
}

// Whether unit `g`, shifted so that its first cell lies on the origin `o`, fits.
fn copy_fits(
    h: usize,
    w: usize,
    colours: &[u8; 1024],
    borders: &[u8; 1984],
    units: &Grouping,
    g: usize,
    o: usize,
) -> bool
    requires { Drawn h w colours.now × UnitIn h w units.now g × (o < h * w) }
    ensures { result ≡ fits_of (unclued h w colours.now) (states_in borders.now)
        (shape_of (flat h w) (entry (numbers_in units.now)) g) o }
{
    let cells = units.cells_of(g);
    let first = usize::from(cells[0]);
    let y = 2 * (o / w) + (64 - 2 * (first / w));
    let x = 2 * (o % w) + (64 - 2 * (first % w));
    for c in cells {
        if !cell_clear(h, w, colours, borders, units, g, usize::from(*c), y, x) {
            return false;
        }
    }
    true
}

// Whether unit `g`, shifted, fits at one of the first eight cells of potential unit `q`.
pub fn copy_fits_soon(
    h: usize,
    w: usize,
    colours: &[u8; 1024],
    borders: &[u8; 1984],
    units: &Grouping,
    g: usize,
    potential: &Grouping,
    q: usize,
) -> bool
    requires { Drawn h w colours.now × UnitIn h w units.now g × (q < 1024)
        × Cells h w (cells_in potential.now) (get_or (starts_in potential.now) q 0)
        (get_or (starts_in potential.now) (q + 1) 0) }
    ensures { result ≡ fits_among (unclued h w colours.now) (states_in borders.now)
        (shape_of (flat h w) (entry (numbers_in units.now)) g)
        (soon_in (cells_in potential.now) (starts_in potential.now) q) }
{
    let cells = potential.cells_of(q);
    for o in &cells[..cells.len().min(8)] {
        if copy_fits(h, w, colours, borders, units, g, usize::from(*o)) {
            return true;
        }
    }
    false
}

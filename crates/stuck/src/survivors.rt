// Blockers: only an origin at which every connection joins one colour can have one. Those survivors are found for all
// origins of a row at once; there a placement is read from its last connection on, and its first wall is the blocker.
ghost use Rattle.std.specs.Prelude.{◌≡◌, ℕ, ◌+◌, ◌*◌, ◌/◌, ◌%◌, ◌<◌, get_or, length, replicate};
ghost use Rattle.lists.specs.Lists.{flat_map};
ghost use Rattle.rules.specs.Flat.{Sized};
ghost use Rattle.groups.specs.Grouping.{cells_in, starts_in};
ghost use Rattle.groups.specs.Parts.{part_of};
ghost use Rattle.reasons.specs.Memory.{Spare, Wrote};
ghost use Rattle.shapes.specs.Raising.{ys_in, xs_in, Raised};
ghost use Rattle.adjacent.specs.Mates.{mates_in, Beside};
ghost use Rattle.planes.specs.Bits.{bit_at};
ghost use Rattle.planes.specs.Masks.{Sizes};
ghost use Rattle.planes.specs.Planes.{planes_of};
ghost use Rattle.stuck.specs.Survivors.{On, Survived, Lain, PlacesDrawn, no_walls, border_at, back_of, placed_at};
ghost use Rattle.stuck.specs.Survivors.{block_in};

use adjacent::Mates;
use groups::Grouping;
use planes::{draw_planes, line_left};
use reasons::append;
use rules::{Literal, Placement, Side};
use shapes::turned::Turned;

// Draws the planes of a page's colours into memory that is 0: a border is clear if it joins one colour.
pub fn draw_colours(h: usize, w: usize, colours: &[u8; 1024], planes: &mut [u64; 192])
    requires { Sized h w × (planes.old ≡ replicate 192 0) }
    ensures { planes.new ≡ planes_of h w colours.now no_walls }
{
    let none = [0u8; 1984];
    draw_planes(h, w, colours, &none, planes);
}

// Writes for each cell of the page 32 times its row, and its column.
pub fn draw_places(h: usize, w: usize, places: &mut [u16; 1024])
    requires { Sized h w × (length places.old ≡ 1024) }
    ensures { PlacesDrawn h w places.new }
{
    let mut y = 0;
    let mut x = 0;
    for c in 0..h * w {
        places[c] = (32 * y + x) as u16;
        x += 1;
        if x == w {
            x = 0;
            y += 1;
        }
    }
}

// Writes for each of the page's rows the origins of the mask at which all n connections are clear. They stand in
// `turned`, raised by 64.
pub fn survivors(
    planes: &[u64; 192],
    mask: &[u64; 33],
    h: usize,
    turned: &Turned,
    n: usize,
    rows: &mut [u64; 32],
)
    requires { Sizes h planes.now mask.now × Raised turned.now n × (length rows.old ≡ 32) }
    ensures { Survived planes.now mask.now h turned.now n
        rows.new }
{
    for y in 0..h {
        rows[y] = line_left(planes, mask[y], y, turned, n);
    }
}

// The bit x of a word.
fn has(word: u64, x: usize) -> bool
    requires { x < 64 }
    ensures { result ≡ bit_at word x }
{
    (word >> x) % 2 == 1
}

// The border at the doubled place (y, x) of the page; both coordinates are raised by 64.
fn border_at(h: usize, w: usize, y: usize, x: usize) -> usize
    requires { Sized h w × On h w y x }
    ensures { result ≡ border_at h w y x }
{
    let down = (y - 64) / 2;
    let across = (x - 64) / 2;
    let below = (y - 64) % 2 == 1;
    if below {
        h * (w - 1) + (down * w + across)
    } else {
        down * (w - 1) + across
    }
}

// The placement with its origin at (y, x), where every connection joins one colour.
fn laid_back(
    h: usize,
    w: usize,
    borders: &[u8; 1984],
    turned: &Turned,
    n: usize,
    y: usize,
    x: usize,
) -> Placement
    requires { Sized h w × Raised turned.now n × (y < 32) × (x < 32)
        × ((j : ℕ) → j < n → On h w (2 * y + get_or (ys_in turned.now) j 0) (2 * x + get_or (xs_in turned.now) j 0)) }
    ensures { result ≡ back_of h w borders.now turned.now y x n }
{
    for j in (0..n).rev() {
        let border = border_at(
            h,
            w,
            2 * y + usize::from(turned[j]),
            2 * x + usize::from(turned[2048 + j]),
        );
        if borders[border] == 1 {
            return Placement::Blocked(border);
        }
    }
    Placement::Fits
}

// The placement with its origin at (y, x): it cannot lie there unless `rows` has that origin.
fn placed(
    h: usize,
    w: usize,
    borders: &[u8; 1984],
    rows: &[u64; 32],
    turned: &Turned,
    n: usize,
    y: usize,
    x: usize,
) -> Placement
    requires { Sized h w × Raised turned.now n × Lain h w rows.now turned.now n × (y < h)
        × (x < w) }
    ensures { result ≡ placed_at h w borders.now rows.now turned.now n y
        x }
{
    if has(rows[y], x) {
        laid_back(h, w, borders, turned, n, y, x)
    } else {
        Placement::Cannot
    }
}

// Writes the blocker of the placement with its origin at the cell o, if it has one; gives the next place.
fn block_at(
    memory: &mut [u16],
    at: usize,
    h: usize,
    w: usize,
    borders: &[u8; 1984],
    places: &[u16; 1024],
    rows: &[u64; 32],
    turned: &Turned,
    n: usize,
    o: usize,
) -> usize
    requires { Sized h w × Raised turned.now n × Lain h w rows.now turned.now n
        × PlacesDrawn h w places.now × (o < h * w) × Spare memory.old at }
    ensures { Wrote memory.old at
        (block_in h w borders.now rows.now turned.now n o)
        memory.new result }
{
    let place = usize::from(places[o]);
    let Placement::Blocked(border) = placed(h, w, borders, rows, turned, n, place / 32, place % 32)
    else {
        return at;
    };
    append(
        memory,
        at,
        Literal {
            border,
            side: Side::Wall,
        },
    )
}

// Writes the blockers of the placements at the cells of a group; gives the next place.
fn block_group(
    memory: &mut [u16],
    start: usize,
    h: usize,
    w: usize,
    borders: &[u8; 1984],
    places: &[u16; 1024],
    rows: &[u64; 32],
    turned: &Turned,
    n: usize,
    cells: &[u16],
) -> usize
    requires { Sized h w × Raised turned.now n × Lain h w rows.now turned.now n
        × PlacesDrawn h w places.now × ((i : ℕ) → i < length cells.now → get_or cells.now i 0 < h * w)
        × Spare memory.old start }
    ensures { Wrote memory.old start
        (flat_map (block_in h w borders.now rows.now turned.now n)
        cells.now) memory.new result }
{
    let mut at = start;
    for o in cells {
        at = block_at(
            memory,
            at,
            h,
            w,
            borders,
            places,
            rows,
            turned,
            n,
            usize::from(*o),
        );
    }
    at
}

// Writes the blockers of the placements at the cells of the groups in the list of mates; gives the next place. `places`
// says where the page's cells are, and `rows` has the survivors.
pub fn block_mates(
    memory: &mut [u16],
    start: usize,
    h: usize,
    w: usize,
    borders: &[u8; 1984],
    places: &[u16; 1024],
    rows: &[u64; 32],
    turned: &Turned,
    n: usize,
    potential: &Grouping,
    mates: &Mates,
) -> usize
    requires { Sized h w × Raised turned.now n × Lain h w rows.now turned.now n × PlacesDrawn h w places.now
        × Beside h w potential.now mates.now × Spare memory.old start }
    ensures { Wrote memory.old start
        (flat_map (λ Q. flat_map (block_in h w borders.now rows.now turned.now n)
        (part_of (cells_in potential.now) (starts_in potential.now) Q))
        (mates_in mates.now)) memory.new result }
{
    let mut at = start;
    for mate in &mates[..usize::from(mates[1024])] {
        at = block_group(
            memory,
            at,
            h,
            w,
            borders,
            places,
            rows,
            turned,
            n,
            potential.cells_of(usize::from(*mate)),
        );
    }
    at
}

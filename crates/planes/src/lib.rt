// The borders that are clear as rows of bits: whether a transform fits, asked for all origins of a row at once.
#![tactic(auto)]

ghost use Rattle.std.specs.Prelude.{◌≡◌, List, [], ◌∷◌, ◌++◌, ℕ, ◌+◌, ◌-◌, ◌*◌, ◌/◌, ◌%◌, ◌<◌, ◌≤◌, ◌^◌, get_or};
ghost use Rattle.std.specs.Prelude.{length, replicate};
ghost use Rattle.std.specs.Int.Bits.{bit_and};
ghost use Rattle.lists.specs.Count.{bit};
ghost use Rattle.rules.specs.Flat.{Sized};
ghost use Rattle.groups.specs.Grouping.{cells_in, starts_in};
ghost use Rattle.shapes.specs.Raising.{Raised};
ghost use Rattle.adjacent.specs.Mates.{mates_in, Beside};
ghost use Rattle.planes.specs.Planes.{clear_at, clear_row, line_word, planes_of};
ghost use Rattle.planes.specs.Masks.{Masked, Sizes, Span, origins_in, clear_word, line_fits, mask_fits};

use adjacent::Mates;
use groups::Grouping;
use shapes::turned::Turned;

pub mod connection; // connection.rt: what one connection does to a placement

// What a connection does to a placement: it ends it without blocker, is clear, or is a wall at a border.
#[derive(Clone, Copy)]
pub enum Reading {
    Ends,
    Clear,
    Walled(usize),
}

// 1 if the border joins two cells of one colour and is not wall, otherwise 0.
fn clear(colours: &[u8; 1024], borders: &[u8; 1984], from: usize, to: usize, border: usize) -> u64
    requires { (from < 1024) × (to < 1024) × (border < 1984) }
    ensures { result ≡ bit (clear_at colours.now borders.now from to border) }
{
    let alike = colours[from] == colours[to];
    let walled = borders[border] == 1;
    u64::from(alike && !walled)
}

// Which of n borders are clear, from the number `border` up: they lie between the cells from `cell` up and those
// `ahead` further on.
fn clear_row(
    colours: &[u8; 1024],
    borders: &[u8; 1984],
    cell: usize,
    ahead: usize,
    border: usize,
    n: usize,
) -> u64
    requires { (n ≤ 32) × (cell + n + ahead ≤ 1024) × (border + n ≤ 1984) }
    ensures { result ≡ clear_row colours.now borders.now cell ahead border n }
{
    let mut acc = 0;
    for x in (0..n).rev() {
        acc = acc * 2 + clear(colours, borders, cell + x, cell + x + ahead, border + x);
    }
    acc
}

// The doubled row r of the page: odd, the borders below a row's cells; even, those right of them.
fn line(h: usize, w: usize, colours: &[u8; 1024], borders: &[u8; 1984], r: usize) -> u64
    requires { Sized h w × (r < 2 * h - 1) }
    ensures { result ≡ line_word h w colours.now borders.now r }
{
    let y = r / 2;
    if r % 2 == 1 {
        return clear_row(colours, borders, y * w, w, h * (w - 1) + y * w, w);
    }
    clear_row(colours, borders, y * w, 1, y * (w - 1), w - 1)
}

// Draws the planes of a page into memory that is 0: the doubled row r stands at 64 + r, its columns from bit 32 on.
pub fn draw_planes(
    h: usize,
    w: usize,
    colours: &[u8; 1024],
    borders: &[u8; 1984],
    planes: &mut [u64; 192],
)
    requires { Sized h w × (planes.old ≡ replicate 192 0) }
    ensures { planes.new ≡ planes_of h w colours.now borders.now }
{
    for r in 0..2 * h - 1 {
        planes[64 + r] = line(h, w, colours, borders, r) << 32;
    }
}

// Flags the cell c.
fn flag(h: usize, w: usize, c: usize, mask: &mut [u64; 33])
    requires { Sized h w × (c < h * w) }
    ensures { (xs : List ℕ) → Masked w xs mask.old → Masked w (xs ++ (c ∷ [])) mask.new }
{
    let y = c / w;
    mask[y] |= 1 << (c % w);
}

// Flags the cells of a group.
fn flag_group(h: usize, w: usize, cells: &[u16], mask: &mut [u64; 33])
    requires { Sized h w × ((i : ℕ) → i < length cells.now → get_or cells.now i 0 < h * w) }
    ensures { (xs : List ℕ) → Masked w xs mask.old → Masked w (xs ++ cells.now) mask.new }
{
    for c in cells {
        flag(h, w, usize::from(*c), mask);
    }
}

// Draws the mask of the origins: the cells of the groups in the list of mates. The rows are followed by the number
// `name`.
pub fn draw_mask(
    h: usize,
    w: usize,
    potential: &Grouping,
    mates: &Mates,
    name: u64,
    mask: &mut [u64; 33],
)
    requires { Sized h w × Beside h w potential.now mates.now }
    ensures { Masked w (origins_in (cells_in potential.now) (starts_in potential.now)
        (mates_in mates.now)) mask.new × (get_or mask.new 32 0 ≡ name) }
{
    mask.fill(0);
    for mate in &mates[..usize::from(mates[1024])] {
        flag_group(h, w, potential.cells_of(usize::from(*mate)), mask);
    }
    mask[32] = name;
}

// The origins `acc` of row y at which a connection is clear too; it is (down, across), raised by 64.
fn step(planes: &[u64; 192], acc: u64, y: usize, down: u8, across: u8) -> u64
    requires { (y < 32) × (down < 128) × (across < 128) }
    ensures { result ≡ bit_and acc (get_or planes.now (2 * y + down) 0 / 2 ^ (across / 2)) }
{
    acc & (planes[2 * y + usize::from(down)] >> (across / 2))
}

// The origins `word` of row y at which all n connections of a transform are clear. They stand in `turned`, raised
// by 64.
pub fn line_left(planes: &[u64; 192], word: u64, y: usize, turned: &Turned, n: usize) -> u64
    requires { (y < 32) × Raised turned.now n }
    ensures { result ≡ clear_word planes.now y turned.now word n }
{
    let mut acc = word;
    for j in 0..n {
        if acc == 0 {
            return 0;
        }
        acc = step(planes, acc, y, turned[j], turned[2048 + j]);
    }
    acc
}

// Whether a transform fits at one of the origins `word` of row y.
fn line_fits(planes: &[u64; 192], word: u64, y: usize, turned: &Turned, n: usize) -> bool
    requires { (y < 32) × Raised turned.now n }
    ensures { result ≡ line_fits planes.now y turned.now n word }
{
    line_left(planes, word, y, turned, n) != 0
}

// The first of the mask's h rows that has an origin; h if none has.
pub fn first_row(mask: &[u64; 33], h: usize) -> usize
    requires { h ≤ 32 }
    ensures { (result ≤ h) × ((y : ℕ) → y < result → get_or mask.now y 0 ≡ 0) }
{
    mask[..h].iter().position(|row| *row != 0).unwrap_or(h)
}

// The row after the last of them that has one; 0 if none has.
pub fn end_row(mask: &[u64; 33], h: usize) -> usize
    requires { h ≤ 32 }
    ensures { (result ≤ h) × ((y : ℕ) → result ≤ y → y < h → get_or mask.now y 0 ≡ 0) }
{
    mask[..h]
        .iter()
        .rposition(|row| *row != 0)
        .map_or(0, |y| y + 1)
}

// Whether it fits at one of the origins of the mask's h rows, which lie from the row `top` to before the row `end`.
pub fn mask_fits(
    planes: &[u64; 192],
    mask: &[u64; 33],
    h: usize,
    top: usize,
    end: usize,
    turned: &Turned,
    n: usize,
) -> bool
    requires { Sizes h planes.now mask.now × Span h mask.now top end × Raised turned.now n }
    ensures { result ≡ mask_fits planes.now mask.now h turned.now n }
{
    for y in top..end {
        if line_fits(planes, mask[y], y, turned, n) {
            return true;
        }
    }
    false
}

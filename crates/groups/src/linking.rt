// From borders to parents: which cells are joined, and trees of cells whose roots are the groups' first cells.
ghost use Rattle.std.specs.Prelude.{◌≡◌, Bool, true, false, List, ℕ, ◌+◌, ◌-◌, ◌*◌, ◌≤◌, ◌<◌};
ghost use Rattle.std.specs.Prelude.{length, get_or, replicate};
ghost use Rattle.rules.specs.Flat.{Sized};
ghost use Rattle.rules.specs.Groups.{entry, merge_if};
ghost use Rattle.groups.specs.Kinds.{joins_by, joins_in};
ghost use Rattle.groups.specs.Forests.{Forest, Rep, ForestLinked};
ghost use Rattle.groups.specs.Ties.{tied_left, above_at, flag_at, TieFlags, Scanned, joined};
ghost use Rattle.groups.specs.Arrays.{Blank};

use crate::Kind;
use board::Board;

// Whether a border with the number v joins its two cells, which have the colours a and b.
fn joins(kind: Kind, v: u8, a: u8, b: u8) -> bool
    ensures { result ≡ joins_by kind v a b }
{
    // both are 1, or neither is
    let one_colour = (a == 1) == (b == 1);
    match kind {
        Kind::Blocks => v == 2,
        Kind::Units => (v == 2) & one_colour,
        Kind::Potential => (v != 1) & one_colour,
    }
}

// The root of cell a.
fn find(p: &[u16; Board::CELL_LIMIT], a: usize) -> usize
    requires { (a < 1024) × Forest p.now }
    ensures { (result ≤ a) × (get_or p.now result 0 ≡ result)
        × ((n : ℕ) (L : List ℕ) → a < n → Rep n p.now L → result ≡ get_or L a 0) }
{
    let mut x = a;
    // a while, since it follows parents
    while usize::from(p[x]) != x {
        x = usize::from(p[x]);
    }
    x
}

// The trees of cells a and b become one: the later root is put below the earlier.
fn join(p: &mut [u16; Board::CELL_LIMIT], a: usize, b: usize)
    requires { (a < 1024) × (b < 1024) × Forest p.old }
    ensures { Forest p.new
        × ((n : ℕ) (L : List ℕ) → n ≤ 1024 → a < n → b < n → Rep n p.old L
        → Rep n p.new (merge_if true (entry L a) (entry L b) L)) }
{
    let c = usize::from(p[a]);
    let d = usize::from(p[b]);
    if p[c] != p[d] {
        let x = find(p, c);
        let y = find(p, d);
        p[x.max(y)] = x.min(y) as u16;
    }
}

// Whether each border joins its two cells: a flag for each, from the colours of its first and of its second cell.
fn tie(kind: Kind, borders: &[u8], firsts: &[u8], seconds: &[u8], flags: &mut [bool])
    requires { (length borders.now ≡ length flags.old) × (length firsts.now ≡ length flags.old)
        × (length seconds.now ≡ length flags.old) }
    ensures { (length flags.new ≡ length flags.old)
        × ((i : ℕ) → i < length flags.old → get_or flags.new i false
        ≡ joins_by kind (get_or borders.now i 0) (get_or firsts.now i 0) (get_or seconds.now i 0)) }
{
    for (i, flag) in flags.iter_mut().enumerate() {
        *flag = joins(kind, borders[i], firsts[i], seconds[i]);
    }
}

// Whether each cell of row y is joined to the cell left of it; the first never is. It takes the row's borders, or one
// more: the flag past the row's end is written over later. `tie` takes 32 borders at a time, but not 31.
fn row(
    kind: Kind,
    h: usize,
    w: usize,
    colours: &[u8; Board::CELL_LIMIT],
    borders: &[u8; Board::BORDER_LIMIT],
    y: usize,
    count: usize,
    lefts: &mut [bool; Board::CELL_LIMIT],
)
    requires { Sized h w × (y < h) × (w ≤ count + 1) × (count ≤ w) × (y * w + count < h * w)
        × TieFlags (y * w) (tied_left h w (joins_in kind h w colours.now borders.now)) lefts.old }
    ensures { TieFlags ((y + 1) * w)
        (tied_left h w (joins_in kind h w colours.now borders.now))
        lefts.new }
{
    let c = y * w;
    let b = y * (w - 1);
    lefts[c] = false;
    tie(
        kind,
        &borders[b..b + count],
        &colours[c..c + count],
        &colours[c + 1..c + 1 + count],
        &mut lefts[c + 1..c + 1 + count],
    );
}

// Whether each cell is joined to the cell left of it, row by row.
fn across(
    kind: Kind,
    h: usize,
    w: usize,
    colours: &[u8; Board::CELL_LIMIT],
    borders: &[u8; Board::BORDER_LIMIT],
    lefts: &mut [bool; Board::CELL_LIMIT],
)
    requires { Sized h w × (length lefts.old ≡ 1024) }
    ensures { TieFlags (h * w) (tied_left h w (joins_in kind h w colours.now borders.now))
        lefts.new }
{
    for y in 0..h - 1 {
        row(kind, h, w, colours, borders, y, w, lefts);
    }
    row(kind, h, w, colours, borders, h - 1, w - 1, lefts);
}

// Whether each cell is joined to the cell above it; those of the first row never are.
fn down(
    kind: Kind,
    h: usize,
    w: usize,
    colours: &[u8; Board::CELL_LIMIT],
    borders: &[u8; Board::BORDER_LIMIT],
    aboves: &mut [bool; Board::CELL_LIMIT],
)
    requires { Sized h w × (aboves.old ≡ replicate 1024 false) }
    ensures { TieFlags (h * w) (above_at h w (joins_in kind h w colours.now borders.now))
        aboves.new }
{
    let b = h * (w - 1);
    let n = (h - 1) * w;
    tie(
        kind,
        &borders[b..b + n],
        &colours[..n],
        &colours[w..w + n],
        &mut aboves[w..w + n],
    );
}

// The parents of the first row: a cell that is joined to the one left of it has that one's, any other is its own.
fn first_row(p: &mut [u16; Board::CELL_LIMIT], w: usize, lefts: &[bool; Board::CELL_LIMIT])
    requires { (1 ≤ w) × (w ≤ 32) × Forest p.old }
    ensures { Forest p.new × ((above : ℕ → Bool) (list : List ℕ)
        → Scanned w w (flag_at lefts.now) above p.new list 0) }
{
    let mut root = 0;
    p[0] = root;
    for c in 1..w {
        root = if lefts[c] { root } else { c as u16 };
        p[c] = root;
    }
}

// The parents of the later rows: a cell that is joined to the one above it has that one's; otherwise as in the first
// row. Where a cell is joined to both, and their parents differ, it goes to the list. Gives the length of the list.
fn later_rows(
    p: &mut [u16; Board::CELL_LIMIT],
    w: usize,
    n: usize,
    lefts: &[bool; Board::CELL_LIMIT],
    aboves: &[bool; Board::CELL_LIMIT],
    list: &mut [u16; Board::CELL_LIMIT],
) -> usize
    requires { (1 ≤ w) × (w ≤ n) × (n ≤ 1024) × Forest p.old × Blank 1024 n list.old
        × Scanned w w (flag_at lefts.now) (flag_at aboves.now) p.old list.old 0 }
    ensures { (result ≤ n) × Forest p.new × Blank 1024 n list.new
        × Scanned n w (flag_at lefts.now) (flag_at aboves.now) p.new list.new result }
{
    let mut k = 0;
    // a usize: of a u16 the compiler would choose the parent above by a jump
    let mut root = usize::from(p[w - 1]);
    for c in w..n {
        let left = lefts[c];
        let over = usize::from(p[c - w]);
        let own = if left { root } else { c };
        root = if aboves[c] { over } else { own };
        p[c] = root as u16;
        // joined to the left one, it gets another parent than that one's only from the cell above it
        list[k] = c as u16;
        k += usize::from(left & (own != root));
    }
    k
}

// The trees of the first k cells of the list and of the cells left of them become one.
fn settle(p: &mut [u16; Board::CELL_LIMIT], list: &[u16; Board::CELL_LIMIT], k: usize)
    requires { (k ≤ 1024) × ((i : ℕ) → i < k → (1 ≤ get_or list.now i 0) × (get_or list.now i 0 < 1024))
        × Forest p.old }
    ensures { Forest p.new × ((n : ℕ) (L : List ℕ) → n ≤ 1024 → ((i : ℕ) → i < k → get_or list.now i 0 < n)
        → Rep n p.old L → Rep n p.new (joined L (entry list.now) k)) }
{
    for &cell in &list[..k] {
        let c = usize::from(cell);
        join(p, c - 1, c);
    }
}

// Each cell's parent, so that cells have one root where they are of one group; `list` is working memory.
pub fn link(
    h: usize,
    w: usize,
    colours: &[u8; Board::CELL_LIMIT],
    borders: &[u8; Board::BORDER_LIMIT],
    kind: Kind,
    p: &mut [u16; Board::CELL_LIMIT],
    list: &mut [u16; Board::CELL_LIMIT],
)
    requires { Sized h w × Forest p.old × Blank 1024 (h * w) list.old }
    ensures { ForestLinked h w (joins_in kind h w colours.now borders.now) p.new
        × Blank 1024 (h * w) list.new }
{
    let mut lefts = [false; Board::CELL_LIMIT];
    let mut aboves = [false; Board::CELL_LIMIT];
    across(kind, h, w, colours, borders, &mut lefts);
    down(kind, h, w, colours, borders, &mut aboves);
    first_row(p, w, &lefts);
    let k = later_rows(p, w, h * w, &lefts, &aboves, list);
    settle(p, list, k);
}

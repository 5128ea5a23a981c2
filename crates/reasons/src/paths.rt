// Path: breadth first over open borders, written back from its end; and the reason of a wall.
ghost use Rattle.std.specs.Prelude.{◌≡◌, [], ◌∷◌, ◌++◌, ◌+◌, ◌*◌, ◌/◌, ◌%◌, ◌<◌, length, get_or, replicate};
ghost use Rattle.rules.specs.Page.{wall_at};
ghost use Rattle.rules.specs.Flat.{Sized, flat};
ghost use Rattle.rules.specs.Groups.{entry};
ghost use Rattle.reasons.specs.Memory.{Spare, Wrote};
ghost use Rattle.lists.specs.UpTo.{up_to};
ghost use Rattle.reasons.specs.Arrays.{direction_at, hop_at};
ghost use Rattle.reasons.specs.Search.{path_in, Lined, Looked, Ended};

use crate::{Direction, Neighbour, append, beside};
use rules::{Literal, Side};

// The search looks from the cell c, which is (y,x), in a direction: a neighbour over an open border that is not
// found yet goes to the end of the queue. Gives the queue's new end.
fn visit(
    queue: &mut [u16; 1024],
    parent: &mut [u16; 1024],
    over: &mut [u16; 1024],
    found: &mut [u8; 1024],
    tail: usize,
    borders: &[u8; 1984],
    h: usize,
    w: usize,
    c: usize,
    y: usize,
    x: usize,
    direction: Direction,
) -> usize
    requires { Sized h w × (length borders.now ≡ 1984) × (c < h * w) × (get_or found.old c 0 ≡ 1)
        × Lined (h * w) queue.old parent.old over.old found.old tail × (y ≡ c / w) × (x ≡ c % w) }
    ensures { Looked h w borders.now c (hop_at h w (c / w) (c % w) direction) queue.old
        parent.old over.old found.old tail queue.new parent.new
        over.new found.new result }
{
    let Some(Neighbour { border, to }) = beside(h, w, c, y, x, direction) else {
        return tail;
    };
    if borders[border] != 2 {
        return tail;
    }
    let seen = found[to] == 1;
    if seen {
        return tail;
    }
    queue[tail] = to as u16;
    parent[to] = c as u16;
    over[to] = border as u16;
    found[to] = 1;
    tail + 1
}

// The search looks from the cell c above and below. Gives the queue's new end.
fn expand_rows(
    queue: &mut [u16; 1024],
    parent: &mut [u16; 1024],
    over: &mut [u16; 1024],
    found: &mut [u8; 1024],
    tail: usize,
    borders: &[u8; 1984],
    h: usize,
    w: usize,
    c: usize,
) -> usize
    requires { Sized h w × (length borders.now ≡ 1984) × (c < h * w) × (get_or found.old c 0 ≡ 1)
        × Lined (h * w) queue.old parent.old over.old found.old tail }
    ensures { Looked h w borders.now c (up_to (λ i. hop_at h w (c / w) (c % w) (direction_at i)) 2) queue.old
        parent.old over.old found.old tail queue.new parent.new
        over.new found.new result }
{
    // a call for each direction and no loop, here and below, so that each is compiled for its direction
    let y = c / w;
    let x = c % w;
    let above = visit(
        queue,
        parent,
        over,
        found,
        tail,
        borders,
        h,
        w,
        c,
        y,
        x,
        Direction::Above,
    );
    visit(
        queue,
        parent,
        over,
        found,
        above,
        borders,
        h,
        w,
        c,
        y,
        x,
        Direction::Below,
    )
}

// The search looks from the cell c above, below, left, right. Gives the queue's new end.
fn expand(
    queue: &mut [u16; 1024],
    parent: &mut [u16; 1024],
    over: &mut [u16; 1024],
    found: &mut [u8; 1024],
    tail: usize,
    borders: &[u8; 1984],
    h: usize,
    w: usize,
    c: usize,
) -> usize
    requires { Sized h w × (length borders.now ≡ 1984) × (c < h * w) × (get_or found.old c 0 ≡ 1)
        × Lined (h * w) queue.old parent.old over.old found.old tail }
    ensures { Looked h w borders.now c ((flat h w).around c) queue.old
        parent.old over.old found.old tail queue.new parent.new
        over.new found.new result }
{
    let y = c / w;
    let x = c % w;
    let below = expand_rows(queue, parent, over, found, tail, borders, h, w, c);
    let left = visit(
        queue,
        parent,
        over,
        found,
        below,
        borders,
        h,
        w,
        c,
        y,
        x,
        Direction::Left,
    );
    visit(
        queue,
        parent,
        over,
        found,
        left,
        borders,
        h,
        w,
        c,
        y,
        x,
        Direction::Right,
    )
}

// The search from a, breadth first, until b is found or nothing is left.
fn hunt(
    queue: &mut [u16; 1024],
    parent: &mut [u16; 1024],
    over: &mut [u16; 1024],
    found: &mut [u8; 1024],
    borders: &[u8; 1984],
    h: usize,
    w: usize,
    a: usize,
    b: usize,
)
    requires { Sized h w × (length borders.now ≡ 1984) × (a < h * w) × (b < h * w)
        × (queue.old ≡ replicate 1024 0) × (length parent.old ≡ 1024) × (length over.old ≡ 1024)
        × (found.old ≡ replicate 1024 0) }
    ensures { Ended h w borders.now a b parent.new over.new
        found.new }
{
    queue[0] = a as u16;
    found[a] = 1;
    let mut head = 0;
    let mut tail = 1;
    // a while, since the queue grows as it is read
    while head < tail {
        if found[b] == 1 {
            return;
        }
        let c = usize::from(queue[head]);
        tail = expand(queue, parent, over, found, tail, borders, h, w, c);
        head += 1;
    }
}

// The way back from b to a, written from the place `from`; nothing if b is not found. Gives the next place.
fn trace_back(
    memory: &mut [u16],
    from: usize,
    parent: &[u16; 1024],
    over: &[u16; 1024],
    found: &[u8; 1024],
    borders: &[u8; 1984],
    h: usize,
    w: usize,
    a: usize,
    b: usize,
) -> usize
    requires { Sized h w × (b < h * w) × Ended h w borders.now a b parent.now over.now found.now
        × Spare memory.old from }
    ensures { Wrote memory.old from (path_in h w borders.now a b) memory.new result }
{
    if found[b] != 1 {
        return from;
    }
    let mut c = b;
    let mut at = from;
    while c != a {
        at = append(
            memory,
            at,
            Literal {
                border: usize::from(over[c]),
                side: Side::Open,
            },
        );
        c = usize::from(parent[c]);
    }
    at
}

// Path(a, b), written from the place `from`; gives the next place. Nothing if a or b is not on the page.
pub fn path(
    memory: &mut [u16],
    from: usize,
    h: usize,
    w: usize,
    borders: &[u8; 1984],
    a: usize,
    b: usize,
) -> usize
    requires { Sized h w × (length borders.now ≡ 1984)
        × Spare memory.old from }
    ensures { Wrote memory.old from (path_in h w borders.now a b) memory.new result }
{
    if h * w <= a || h * w <= b {
        return from;
    }
    let mut queue = [0u16; 1024];
    let mut parent = [0u16; 1024];
    let mut over = [0u16; 1024];
    let mut found = [0u8; 1024];
    hunt(
        &mut queue,
        &mut parent,
        &mut over,
        &mut found,
        borders,
        h,
        w,
        a,
        b,
    );
    trace_back(memory, from, &parent, &over, &found, borders, h, w, a, b)
}

// Step 2's reason: Path from a cell to its neighbour, then the wall between them. Gives the number of literals.
pub fn wall_reason(
    memory: &mut [u16],
    h: usize,
    w: usize,
    borders: &[u8; 1984],
    a: usize,
    b: usize,
    border: usize,
) -> usize
    requires { Sized h w × (length borders.now ≡ 1984) × (border < 1984)
        × Spare memory.old 0 }
    ensures { Wrote memory.old 0 (path_in h w borders.now a b ++ (wall_at border ∷ []))
        memory.new result }
{
    let at = path(memory, 0, h, w, borders, a, b);
    append(
        memory,
        at,
        Literal {
            border,
            side: Side::Wall,
        },
    )
}

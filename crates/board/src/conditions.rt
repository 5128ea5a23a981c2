// The conditions that a board's places are tested by.
ghost use Rattle.std.specs.Prelude.{◌≡◌, Bool, true, false, ◌&&◌, ℕ, ◌<◌, ◌≤◌, length, get_or, replicate};
ghost use Rattle.lists.specs.Tests.{all_between};
ghost use Rattle.board.specs.Alien.{colours_right, clues_right, entries_right, Flags, border_right, borders_by};

use crate::Board;

// What a step gathers of the elements from one place to another: where it keeps a value that passes exactly while the
// elements do, whether all of them do. Here and below there is no exit at the first that does not: the loop then takes
// many at a time.
pub fn gathered<T: Copy, A: Copy, F: Fn(A, T) -> A>(
    elements: &[T],
    from: usize,
    to: usize,
    first: A,
    step: F,
) -> A
    requires within { to ≤ length elements.now }
    requires callable { F.IsAlwaysCallable step }
    ensures { (holds : A → Bool) (passes : T → Bool) (z : T) → holds first ≡ true
        → ((a : A) (x : T) (b : A) → F.post step a x b → holds b ≡ (holds a && passes x))
        → holds result ≡ all_between from to (λ i. passes (get_or elements.now i z)) }
{
    let mut found = first;
    for i in from..to {
        found = step(found, elements[i]);
    }
    found
}

// Whether the first n colours are 0 or 1.
pub fn colours_right(colours: &[u8], n: usize) -> bool
    requires { n ≤ length colours.now }
    ensures { result ≡ colours_right colours.now n }
{
    gathered(colours, 0, n, true, |right, c| right & (c <= 1))
}

// Whether the first n clues are clues, or -1 for none.
pub fn clues_right(clues: &[i32], n: usize) -> bool
    requires { n ≤ length clues.now }
    ensures { result ≡ clues_right clues.now n }
{
    gathered(clues, 0, n, true, |right, k| right & (-1 <= k))
}

// Whether the first count entries are numbers of so many borders. They are compared as numbers of 16 bits, of which the
// loop takes many at a time.
pub fn entries_right(stack: &[u16; Board::BORDER_LIMIT], borders: usize, count: usize) -> bool
    requires { (borders ≤ 1984) × (count ≤ 1984) }
    ensures { result ≡ entries_right stack.now borders count }
{
    let end = borders as u16;
    gathered(stack, 0, count, true, |right, e| right & (e < end))
}

// Whether none of the first count entries is an earlier one; flags which borders they are.
pub fn flag_stack(
    stack: &[u16; Board::BORDER_LIMIT],
    count: usize,
    seen: &mut [bool; Board::BORDER_LIMIT],
) -> bool
    requires { (count ≤ 1984) × ((i : ℕ) → i < count → get_or stack.now i 0 < 1984)
        × (seen.old ≡ replicate 1984 false) }
    ensures { Flags stack.now count result seen.new }
{
    let mut once = true;
    for entry in &stack[..count] {
        let e = usize::from(*entry);
        once &= !seen[e];
        seen[e] = true;
    }
    once
}

// Whether v is undecided, wall or open, and decided exactly if on the stack. With `&&` the loop below would take one
// border at a time.
fn border_right(v: u8, on: bool) -> bool
    ensures { result ≡ border_right v on }
{
    (v <= 2) & ((v == 0) != on)
}

// Whether the first n borders are right, by the flags of those on the stack.
pub fn borders_right(
    borders: &[u8; Board::BORDER_LIMIT],
    seen: &[bool; Board::BORDER_LIMIT],
    n: usize,
) -> bool
    requires { n ≤ 1984 }
    ensures { result ≡ borders_by borders.now seen.now n }
{
    let mut right = true;
    for i in 0..n {
        right &= border_right(borders[i], seen[i]);
    }
    right
}

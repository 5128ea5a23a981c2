// The tally of a board: kept by decides and undos, and tested.
ghost use Rattle.std.specs.Prelude.{◌≡◌, ◌-◌, ◌<◌, ◌≤◌};
ghost use Rattle.rules.specs.Codes.{side_in};
ghost use Rattle.rules.specs.Book.{tally_of, same_tally};
ghost use Rattle.board.specs.Alien.{code_count};
ghost use Rattle.board.specs.Board.{side_count, tally_more, tally_less};

use crate::Board;
use rules::Tally;

// The tally with one border more decided, to the code v.
pub fn more(mut t: Tally, v: u8) -> Tally
    requires { (0 < t.undecided) × (t.walls ≤ 1984) × (t.opens ≤ 1984) }
    ensures { result ≡ tally_more t (side_in v) }
{
    t.undecided -= 1;
    if v == 1 {
        t.walls += 1;
    } else {
        t.opens += 1;
    }
    t
}

// The tally with one border less decided, which had the code v. It stands beside `more`: told by a parameter which way
// to count, one function for both would be no plainer.
pub fn less(mut t: Tally, v: u8) -> Tally
    requires { (t.undecided ≤ 1984) × (0 < side_count t (side_in v)) }
    ensures { result ≡ tally_less t (side_in v) }
{
    t.undecided += 1;
    if v == 1 {
        t.walls -= 1;
    } else {
        t.opens -= 1;
    }
    t
}

// How many of the first n borders are walls. They are counted in 16 bits, so that the compiler takes eight borders at a
// time.
fn walls(borders: &[u8; Board::BORDER_LIMIT], n: usize) -> usize
    requires { n ≤ 1984 }
    ensures { result ≡ code_count borders.now n 1 }
{
    let mut found: u16 = 0;
    for i in 0..n {
        found += u16::from(borders[i] == 1);
    }
    usize::from(found)
}

// Whether the tally is that of so many borders, of which count are decided: then the walls tell the opens.
pub fn tally_right(
    total: usize,
    borders: &[u8; Board::BORDER_LIMIT],
    count: usize,
    t: Tally,
) -> bool
    requires { (total ≤ 1984) × (count ≤ total) × (code_count borders.now total 1 ≤ count) }
    ensures { result ≡ same_tally t (tally_of (total - count) (code_count borders.now total 1)
        (count - code_count borders.now total 1)) }
{
    let found = walls(borders, total);
    let right = Tally {
        undecided: total - count,
        walls: found,
        opens: count - found,
    };
    t == right
}

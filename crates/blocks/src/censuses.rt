// What step 1 asks of a block's cells: how many there are of each colour, their potential units, and the first clue.
ghost use Rattle.std.specs.Prelude.{◌≡◌, ◌+◌, ◌<◌};
ghost use Rattle.rules.specs.Codes.{clue_of, colours_in, clues_in};
ghost use Rattle.rules.specs.Groups.{entry};
ghost use Rattle.groups.specs.Grouping.{numbers_in};
ghost use Rattle.blocks.specs.Censuses.{clue_in, no_part, next_part, census_of};
ghost use Rattle.blocks.specs.Arrays.{CellsListed};

use crate::{Census, Part};
use groups::Grouping;

// The clue that a place of a board spells.
pub fn clue_at(k: i32) -> Option<usize>
    ensures { result ≡ clue_in (clue_of k) }
{
    if 0 <= k { Some(k as usize) } else { None }
}

impl Part {
    // The part of no cell.
    fn empty() -> Part
        ensures { result ≡ no_part }
    {
        Part {
            size: 0,
            unit: 0,
            clued: false,
        }
    }

    // The part with one cell more, of the potential unit `unit`; `clued` says whether it has a clue.
    #[tactic(auto, unfolding(crate::specs::Censuses::next_part))]
    fn with_cell(self, unit: usize, clued: bool) -> Part
        requires { self.size < 1024 }
        ensures { result ≡ next_part self unit clued }
    {
        Part {
            size: self.size + 1,
            unit: if self.size == 0 { unit } else { self.unit },
            clued: self.clued || clued,
        }
    }
}

// What step 1 asks of some cells.
pub fn census(
    colours: &[u8; 1024],
    clues: &[i32; 1024],
    potential: &Grouping,
    cells: &[u16],
) -> Census
    requires { CellsListed cells.now }
    ensures { result ≡ census_of (colours_in colours.now) (clues_in clues.now)
        (entry (numbers_in potential.now)) cells.now }
{
    let mut zero = Part::empty();
    let mut one = Part::empty();
    let mut first = None;
    for &c in cells {
        let c = usize::from(c);
        let unit = potential.group_of(c);
        let clue = clue_at(clues[c]);
        first = first.or(clue);
        if colours[c] == 1 {
            one = one.with_cell(unit, clue.is_some());
        } else {
            zero = zero.with_cell(unit, clue.is_some());
        }
    }
    Census {
        zero,
        one,
        clue: first,
    }
}

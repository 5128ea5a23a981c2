// For tests alone: the groups asked of a board, and a group's part of the unit list or of the potential list. The board
// is given as an image; an image of another length is alien. As in lib.rt, words are written from the start of the
// memory, and where it has under 16,384 places a call gives 65,535 and leaves it.
ghost use Rattle.std.specs.Prelude.{◌≡◌};
ghost use Rattle.groups.specs.Grouping.{group_cells};
ghost use Rattle.groups.specs.Parts.{part_from};
ghost use Rattle.probe.specs.Probe.{kind_of};
ghost use Rattle.probe.specs.ProbeAsked.{which_of, asked_in, told_words, part_in, AskedTold};

use crate::{ROOM, UNFIT, hand_out_grouping, kind_of};
use board::Refusal;
use groups::{Grouping, Kind, Which};
use reasons::hand_out;

// 0 is the unit list, any other number the potential list. C gives the number.
fn which_of(which: u32) -> Which
    ensures { result ≡ which_of which }
{
    match which {
        0 => Which::Units,
        _ => Which::Potential,
    }
}

// What the board that the image s spells gives, asked for its groups of one kind.
fn asked_in(s: &[u8], kind: Kind) -> Result<Grouping, Refusal>
    ensures { result ≡ asked_in s.now kind }
{
    if s.len() != image::LENGTH {
        return Err(Refusal::Alien);
    }
    groups::asked(image::reading::board(s), kind)
}

// The groups of one kind, as `probe_groups` writes them; of an alien image the refusal's number, and the memory stays.
pub fn probe_asked(s: &[u8], kind: u32, memory: &mut [u16]) -> usize
    ensures { AskedTold (told_words (asked_in s.now (kind_of kind))) memory.old memory.new result }
{
    match asked_in(s, kind_of(kind)) {
        Err(refusal) => refusal.number() as usize,
        Ok(grouping) => {
            if memory.len() < ROOM {
                return UNFIT;
            }
            hand_out_grouping(memory, &grouping)
        }
    }
}

// The cells of group g of the units or of the potential units.
fn part_in<'a>(units: &'a Grouping, potential: &'a Grouping, which: Which, g: usize) -> &'a [u16]
    ensures { result.now ≡ part_from which (group_cells units.now g)
        (group_cells potential.now g) }
{
    groups::part(
        &units.cells,
        &units.starts,
        &potential.cells,
        &potential.starts,
        which,
        g,
    )
}

// The cells of group g, as the part of the chosen list. There are none where no group has the number, and so of an
// alien image.
pub fn probe_part(s: &[u8], which: u32, g: usize, memory: &mut [u16]) -> usize
    ensures { AskedTold (Ok (part_in s.now (which_of which) g)) memory.old memory.new result }
{
    if memory.len() < ROOM {
        return UNFIT;
    }
    let Ok(units) = asked_in(s, Kind::Units) else {
        return 0;
    };
    let Ok(potential) = asked_in(s, Kind::Potential) else {
        return 0;
    };
    hand_out(memory, part_in(&units, &potential, which_of(which), g))
}

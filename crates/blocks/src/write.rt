// Step 1's reason, written from the start of a reason's memory.
ghost use Rattle.std.specs.Prelude.{◌≡◌, length};
ghost use Rattle.rules.specs.Flat.{Sized};
ghost use Rattle.groups.specs.Grouping.{numbers_in};
ghost use Rattle.reasons.specs.Memory.{Spare, Wrote};
ghost use Rattle.reasons.specs.Arrays.{GroupAt, edge_in};
ghost use Rattle.blocks.specs.Written.{fault_unit, faulty_literals};

use crate::{Fault, Faulty};
use groups::Grouping;
use reasons::{edge, inside};

// Edge of a potential unit, from the place `start`, with flags of its own; gives the next place.
fn edge_of(
    memory: &mut [u16],
    start: usize,
    h: usize,
    w: usize,
    colours: &[u8; 1024],
    borders: &[u8; 1984],
    potential: &Grouping,
    p: usize,
) -> usize
    requires { Sized h w × (length borders.now ≡ 1984) × (length colours.now ≡ 1024)
        × GroupAt h w potential.now p × Spare memory.old start }
    ensures { Wrote memory.old start (edge_in h w colours.now borders.now
        (numbers_in potential.now) p) memory.new result }
{
    let mut flagged = [0u8; 1024];
    edge(
        memory,
        start,
        h,
        w,
        colours,
        borders,
        potential,
        p,
        &mut flagged,
    )
}

// The reason of a faulty block, from the start of the memory; gives the number of literals.
pub fn write_fault(
    memory: &mut [u16],
    h: usize,
    w: usize,
    colours: &[u8; 1024],
    borders: &[u8; 1984],
    blocks: &Grouping,
    potential: &Grouping,
    faulty: Faulty,
) -> usize
    requires { Sized h w × (length borders.now ≡ 1984) × (length colours.now ≡ 1024)
        × GroupAt h w blocks.now faulty.block × GroupAt h w potential.now (fault_unit faulty.fault)
        × Spare memory.old 0 }
    ensures { Wrote memory.old 0 (faulty_literals h w colours.now borders.now
        (numbers_in blocks.now) (numbers_in potential.now) faulty) memory.new result }
{
    let b = faulty.block;
    match faulty.fault {
        Fault::InsideEdge(p) => {
            let at = inside(memory, 0, h, w, borders, blocks, b);
            edge_of(memory, at, h, w, colours, borders, potential, p)
        }
        Fault::Inside => inside(memory, 0, h, w, borders, blocks, b),
        Fault::Edge(p) => edge_of(memory, 0, h, w, colours, borders, potential, p),
        Fault::EdgeInside(p) => {
            let at = edge_of(memory, 0, h, w, colours, borders, potential, p);
            inside(memory, at, h, w, borders, blocks, b)
        }
    }
}

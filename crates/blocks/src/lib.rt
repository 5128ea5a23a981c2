// Step 1 of the check: the first block with which something is wrong, and the reason of it.
#![tactic(auto)]

mod censuses; // censuses.rt: what step 1 asks of a block's cells
pub mod faults; // faults.rt: what is wrong with a block
pub mod write; // write.rt: the reason

// What a block's cells of one colour are: how many, the potential unit of the first, and whether one has a clue.
#[derive(Clone, Copy)]
pub struct Part {
    pub size: usize,
    pub unit: usize,
    pub clued: bool,
}

// What step 1 asks of a block's cells: those of each colour, and the first clue.
#[derive(Clone, Copy)]
pub struct Census {
    pub zero: Part,
    pub one: Part,
    pub clue: Option<usize>,
}

// What is wrong with a block B, by the parts of its reason; the number is that of a potential unit P.
#[derive(Clone, Copy)]
pub enum Fault {
    // Inside(B), Edge(P)
    InsideEdge(usize),
    // Inside(B)
    Inside,
    // Edge(P)
    Edge(usize),
    // Edge(P), Inside(B)
    EdgeInside(usize),
}

// What one look at a block's cells shows: what is wrong with the block, or that a census is to tell.
#[derive(Clone, Copy)]
pub enum Look {
    Settled(Option<Fault>),
    Unsure,
}

// A block and what is wrong with it.
#[derive(Clone, Copy)]
pub struct Faulty {
    pub block: usize,
    pub fault: Fault,
}

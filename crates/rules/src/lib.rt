// The types that the definitions and the code share; specs/ has 01's definitions of the rules,
// the numbering, Check and the book.
#![tactic(auto)]

ghost use Rattle.std.specs.Prelude.{◌≡◌};

// The side of a decided border.
#[derive(Clone, Copy, PartialEq, Eq)]
pub enum Side {
    Wall,
    Open,
}

// What stands in a board for a border of that side.
impl From<Side> for u8 {
    ghost use Rattle.rules.specs.Codes.{code_of};

    ghost from_gives = { λ side code. code ≡ code_of side };

    fn from(side: Side) -> u8 {
        match side {
            Side::Wall => 1,
            Side::Open => 2,
        }
    }
}

// A border number with its side.
#[derive(Clone, Copy, PartialEq, Eq)]
pub struct Literal {
    pub border: usize,
    pub side: Side,
}

// What a solver asks of a board.
#[derive(Clone, Copy)]
pub enum Call {
    Decide(Literal),
    Undo,
    Check,
    Preview(Literal),
}

// How many borders of a board are undecided, walls and open.
#[derive(Clone, Copy, PartialEq, Eq)]
pub struct Tally {
    pub undecided: usize,
    pub walls: usize,
    pub opens: usize,
}

// What laying a transform at a cell gives.
#[derive(Clone, Copy)]
pub enum Placement {
    Fits,
    Blocked(usize),
    Cannot,
}

// A call on a tally record that the host lends: the record is read and written whole, and the call is made on its
// value. It is the one function over a lent struct.
ghost use Rattle.std.specs.Prelude.{◌≡◌};
ghost use Rattle.calls.specs.Counted.{counted_by, counted_of, counted_memory};

use crate::{Stepped, call_by_value};
use board::Board;
use rules::{Call, Tally};

// One call on a board, with the record afterwards in the lent one. "Only decide, undo, check and preview on a board
// take it" (02): these are the cases of `Call`.
pub fn counted_call(tally: &mut Tally, board: Board, call: Call, memory: &mut [u16]) -> Stepped
    ensures { (counted_by result tally.new ≡ counted_of board call tally.old memory.old)
        × (memory.new ≡ counted_memory board call tally.old memory.old) }
{
    let c = call_by_value(board, call, *tally, memory);
    *tally = c.tally;
    c.stepped
}

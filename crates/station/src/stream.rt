// Rows from a pipe, with no list of ends: the row cutter, a call for each piece. The state goes in and comes out, plain numbers that a caller may
// keep between calls; what is in it stands in docs/CUTTER.md.
ghost use Rattle.format.specs.Described.{spelled};
ghost use Rattle.format.specs.Promises.{Started, PieceCut, Finished};

use cutter::{Cutting, start_listed};
use format::{Cutter, Refusal};
use list_reader::read_list;

// The column count and 0, or the refusal; and the state before the first byte, which holds the refusal if there is one.
pub fn start(list: &[u8]) -> Cutting
    ensures { Started (spelled list.now) result.answer result.state }
{
    start_listed(read_list(list))
}

// 33, the refusal that stands, 14, then 12 and row faults byte by byte; or how many rows end in the piece, and 0. The ends are in the list, counted
// from the start of the stream, also those before a fault.
pub fn cut(state: Cutter, piece: &[u8], ends: &mut [u64]) -> Cutting
    ensures { PieceCut state piece.now ends.old result.answer result.state ends.new }
{
    cutter::cut(state, piece, ends)
}

// 33, the refusal that stands, 16 within a row; or the rows in all, and 0.
pub fn finish(state: Cutter) -> Result<(u64, u64), Refusal>
    ensures { Finished state result }
{
    cutter::finish(state)
}

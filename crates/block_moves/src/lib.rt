// The blocks of variable bytes, inverted back.
#![tactic(auto)]

ghost use Rattle.std.specs.Prelude.{◌≡◌, cond, eqb, ◌+◌, ◌^◌, ◌<◌, ◌≤◌};
ghost use Rattle.format.specs.Limits.{max_slot, max_total};
ghost use Rattle.format.specs.Field.{block_size};
ghost use Rattle.format.specs.CutterRule.{before};
ghost use Rattle.format.specs.Cutter.{lowest as lowestOf, end_move, block_move};
ghost use Rattle.moves.specs.Moves.{as_move};

use blocks::{BLOCK_CONTINUATION, block_size};
use format::{MAX_SLOT, RowFault, Spot};
use moves::Moved;

// How many bytes of a value come before block k.
// To do: `before k ≤ max_slot`, here and below, in a type of a block's number.
pub fn bytes_before(k: usize) -> usize
    requires { before k ≤ max_slot }
    ensures { result ≡ before k }
{
    if k < 4 {
        return 8 * k;
    }
    32 * (k - 3)
}

// With the mark of the byte after the bytes seen, if it is not zero.
fn marked(marks: u64, seen: usize, byte: u8) -> u64
    requires seen_bound { seen < 32 }
    requires marks_bound { marks < 2 ^ seen }
    ensures { result ≡ marks + cond (eqb byte 0) 0 (2 ^ seen) }
{
    let bit = (byte != 0) as u64;
    marks + (bit << seen)
}

// The lowest bit that is set, of 32.
fn lowest(marks: u64) -> u64
    ensures { (result ≡ lowestOf 32 marks) × (result ≤ 32) }
{
    marks.trailing_zeros().min(32) as u64
}

// The end byte of block k, all of whose bytes are seen: 20, 21, 23.
fn end_byte(k: usize, marks: u64, at: u64, end: u8) -> Moved
    requires k_bound { before k ≤ max_slot }
    requires k_bound_2 { block_size k ≤ at }
    requires at_le_max_total { at ≤ max_total }
    ensures { as_move result ≡ end_move k marks at end }
{
    let size = block_size(k);
    if end == BLOCK_CONTINUATION {
        if MAX_SLOT < bytes_before(k) + size {
            return Moved::Bad(RowFault::TooLong, at);
        }
        return Moved::On(Spot::Block(k + 1, 0, 0));
    }
    let used = usize::from(end);
    if used < 1 {
        return Moved::Bad(RowFault::EndByte, at);
    }
    if size < used {
        return Moved::Bad(RowFault::EndByte, at);
    }
    let padding = marks >> used;
    if padding != 0 {
        let start = at - size as u64;
        return Moved::Bad(RowFault::Padding, start + used as u64 + lowest(padding));
    }
    if MAX_SLOT < bytes_before(k) + used {
        return Moved::Bad(RowFault::TooLong, at);
    }
    Moved::Whole
}

// A byte of block k.
// `seen ≤ at`, here and in `value_moves`: two numbers of a spot and its row, which no type holds together in plainer words.
pub fn block_byte(k: usize, seen: usize, marks: u64, at: u64, byte: u8) -> Moved
    requires k_bound { before k ≤ max_slot }
    requires seen_bound { seen ≤ block_size k }
    requires marks_bound { marks < 2 ^ seen }
    requires seen_le_at { seen ≤ at }
    requires at_le_max_total { at ≤ max_total }
    ensures { as_move result ≡ block_move k seen marks at byte }
{
    if seen < block_size(k) {
        return Moved::On(Spot::Block(k, seen + 1, marked(marks, seen, byte)));
    }
    end_byte(k, marks, at, byte)
}

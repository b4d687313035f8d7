// The bytes after a fixed null's lead, which are zeros.
ghost use Rattle.std.specs.Prelude.{◌≡◌, ◌<◌};
ghost use Rattle.format.specs.Cutter.{first_bad, null_move};
ghost use Rattle.moves.specs.Moves.{as_move};

use crate::Moved;
use format::{RowFault, Spot};

// The place of the first that is not zero: the one known, or else this one; 0 for none.
fn first_bad(known: u64, at: u64, byte: u8) -> u64
    ensures { result ≡ first_bad known at byte }
{
    if known != 0 {
        return known;
    }
    if byte == 0 {
        return 0;
    }
    at
}

// 18 shows at the last of them.
// `seen < width`, here and above: two numbers of a spot and its column, which no type holds together in plainer words.
pub fn null_byte(width: usize, seen: usize, known: u64, at: u64, byte: u8) -> Moved
    requires { seen < width }
    ensures { as_move result ≡ null_move width seen known at byte }
{
    let first = first_bad(known, at, byte);
    if seen + 1 < width {
        return Moved::On(Spot::Nulls(seen + 1, first));
    }
    if first == 0 {
        return Moved::Whole;
    }
    Moved::Bad(RowFault::NullRest, first)
}

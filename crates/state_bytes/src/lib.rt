// A row cutter's state as lent bytes: thirteen numbers of eight bytes, low byte first, then four bytes for each column that there may be.
#![tactic(auto)]

use format::MAX_COLUMNS;

mod read;
mod write;

pub use read::{read_state, written_as};
pub use write::{put_numbers, put_refused, put_state};

// The bytes of the numbers, and those of a state.
const NUMBER_BYTES: usize = 104;

pub const STATE_BYTES: usize = NUMBER_BYTES + 4 * MAX_COLUMNS;

// What one byte does to a row cutter's state: its numbers, without the columns.
#![tactic(auto)]

use format::{Refusal, Spot};

pub mod step;

// The numbers of a state: rows ended, bytes of the stream, bytes of the row that is being read, its column, and where in that field.
#[derive(Clone, Copy)]
pub struct Place {
    pub rows: u64,
    pub bytes: u64,
    pub row: u64,
    pub column: usize,
    pub spot: Spot,
}

// What a byte does: the row goes on, or it ended; or the stream is refused. To do: a Result
// with a flag.
#[derive(Clone, Copy)]
pub enum Stepped {
    Going(Place),
    Ended(Place),
    Stopped(Refusal),
}

// The row cutter: rows joined, with no offsets, handed over in pieces that are cut anywhere. A state goes in and comes out, plain numbers
// that a caller may keep; the ends of the rows, counted from the start of the stream, go to a lent list.
#![tactic(auto)]

ghost use Rattle.std.specs.Prelude.{◌≡◌};
ghost use Rattle.cutter_step.specs.Places.{place_of};

use cutter_step::Place;
use format::{Cutter, Refusal};

mod entry;

pub use entry::{cut, cut_counted, finish, start_listed};

// What a start or a call answers, and the state that it leaves.
#[derive(Clone, Copy)]
pub struct Cutting {
    pub state: Cutter,
    pub answer: Result<(u64, u64), Refusal>,
}

// What a call leaves of the state: all of it, its columns with other numbers, or a refusal. To do: a Result
// of an Option.
#[derive(Clone, Copy)]
pub enum Left {
    Same,
    Moved(Place),
    Stopped(Refusal),
}

// The same without the columns, which stay where they are, and how many ends are in the list.
#[derive(Clone, Copy)]
pub struct Counted {
    pub answer: Result<(u64, u64), Refusal>,
    pub left: Left,
    pub ends: usize,
}

// The numbers of a state.
pub fn place_of(state: Cutter) -> Place
    ensures { result ≡ place_of state }
{
    let spot = state.spot;
    Place {
        rows: state.rows,
        bytes: state.bytes,
        row: state.row,
        column: state.column,
        spot: spot,
    }
}

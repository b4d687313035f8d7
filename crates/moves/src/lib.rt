// What one byte does to its field, as it is answered; and the places in a field that have a few words for it: the lead byte, and the bytes
// after a null's.
#![tactic(auto)]

use format::{RowFault, Spot};

pub mod lead;
pub mod nulls;

// The field goes on, it is whole, or a fault shows: which, and the place of the bad byte in the row. To do: a
// Result of an Option.
#[derive(Clone, Copy)]
pub enum Moved {
    On(Spot),
    Whole,
    Bad(RowFault, u64),
}

// A row cutter's walk over a piece.
#![tactic(auto)]

use cutter_step::Place;
use format::Refusal;

pub mod walk;

// What the walk over a piece answers: the refusal that stopped it, where it stands if none did, how many ends are in the list, and how many
// bytes it read.
#[derive(Clone, Copy)]
pub struct Walked {
    pub check: Result<(), Refusal>,
    pub place: Place,
    pub ends: usize,
    pub read: usize,
}

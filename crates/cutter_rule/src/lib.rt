// The rule on a row cutter's state: what every state from a start or a call keeps.
#![tactic(auto)]

mod rule;

pub use rule::keeps;

// Of the columns, if they are such as a list may have: the fewest and the most bytes of their fields together, of those before the one
// that is being read, and of all.
#[derive(Clone, Copy)]
pub struct Sums {
    pub kept: bool,
    pub low: u64,
    pub high: u64,
    pub fewest: u64,
    pub most: u64,
}

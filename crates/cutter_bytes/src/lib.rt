// The row cutter's calls on a state that is lent as bytes, with the ends of rows as bytes, eight a number; the C entries are thin over these.
#![tactic(auto)]

mod entry;
mod parts;

pub use entry::{cut_lent, finish_lent, start_lent};

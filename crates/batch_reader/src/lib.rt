// The check of a batch of rows: the offsets, every field of every row, and how much room the decoded sheet needs.
#![tactic(auto)]

mod batch;
mod room;

pub use batch::check_rows;

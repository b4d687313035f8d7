// The fields of some rows in one column: each is written at its row's cursor, which moves past it. The column is decided once, outside of
// the loop over the rows.
#![tactic(auto)]

mod column;
mod names;
mod numbers;
mod valid;

pub use column::write_column;

// The room that encode and decode ask for.
#![tactic(auto)]

pub mod rows;
pub mod sheet;

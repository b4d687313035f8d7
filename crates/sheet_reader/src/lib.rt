// The sheet, checked against its columns.
#![tactic(auto)]

pub mod sheet;

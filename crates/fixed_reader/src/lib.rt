// The fields of the fixed kinds, read (fixed.rs of the Rust): 01 and the value bytes, or the null byte and zeros to the same length.
//
//     row 01 7F FF    descending 01 80 00    i16 -1
//     row 00 00 00    descending 00 00 00    i16 null, first
#![tactic(auto)]

mod reader;

pub use reader::{read, read_boolean, read_float};

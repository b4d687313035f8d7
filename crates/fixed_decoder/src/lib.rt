// The fields of the fixed kinds, decoded (fixed.rs of the Rust), once a reader has found no fault in them.
//
//     row 01 7F FF    descending 01 80 00    i16 -1    sheet FF FF
//     row 00 00 00    descending 00 00 00    i16 null, first    sheet 00 00
#![tactic(auto)]

mod decoder;
mod slots;

pub use decoder::{decode, decode_boolean};
pub use slots::slot;

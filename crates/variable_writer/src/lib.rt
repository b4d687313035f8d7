// The fields of variable bytes, written (variable.rs of the Rust).
#![tactic(auto)]

mod encoder;

pub use encoder::{encode_null, encode_one};

// The fields of variable bytes, read and copied back (variable.rs of the Rust): the count walk, and the copying walk.
//
//     ""           01
//     "a"          02 | 61 00 00 00 00 00 00 00 01
//     9 bytes      02 | 8 bytes FF | 1 byte, 00 x7, 01
//     33 bytes     02 | 8 bytes FF | 8 bytes FF | 8 bytes FF | 8 bytes FF | 1 byte, 00 x31, 01
#![tactic(auto)]

mod copier;
mod reader;
mod short;

pub use copier::{Copied, decode_blocks};
pub use reader::read;
pub use short::{Short, read_short};

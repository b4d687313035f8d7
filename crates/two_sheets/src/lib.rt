// The user's demands on two sheets encoded under one list: each function calls the real entries on lent buffers, and what it ensures is the
// demand itself. None asks anything of its caller. The theorems behind them stand in crate `demands`.
#![tactic(auto)]

pub mod order;
pub mod slices;

// All rows of one plate: functions that call the real entries on lent buffers, and ensure what the first k fields of encoded rows are. The
// theorems behind them stand in crate `plates`.
#![tactic(auto)]

pub mod plate;
pub mod prefix;

// The values of the fixed kinds but bool, from the fields at the cursors, which then move past them: word by word where the kind
// allows, and else byte by byte.
#![tactic(auto)]

mod numbers;
mod values;

pub use numbers::move_wide;
pub use values::advance;

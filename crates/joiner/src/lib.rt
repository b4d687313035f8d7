// Sorted batches of rows: the check that a pass is one, passed on from crate `pass_checker`, and two passes joined. Rows are compared as bytes,
// and not read as fields.
#![tactic(auto)]

mod merging;

pub use merging::merge;
pub use pass_checker::check_pass;

// The checking walk over the rows of a batch: every field of every row.
#![tactic(auto)]

mod walk;

pub use walk::check_fields;

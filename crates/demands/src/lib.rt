// The user's demands, as definitions in specs/ and theorems in proofs/. The functions that call the real entries and ensure them are the
// crates `round_trip` and `two_sheets`; here are the types of what they answer.
#![tactic(auto)]

pub mod slices;

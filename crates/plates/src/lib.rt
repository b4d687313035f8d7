// All rows of one plate: what the first k fields of encoded rows are, as definitions in specs/ and theorems in proofs/. The functions that
// call the real entries and ensure it are the crate `plate_calls`.
#![tactic(auto)]

// No code: laws of the row cutter's definitions in crate format, in proofs/.
#![tactic(auto)]

// No code: laws of lists, bytes, checks and appending, on which every other crate's proofs stand, in proofs/.
#![tactic(auto)]

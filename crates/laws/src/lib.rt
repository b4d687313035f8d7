// No code: laws of the definitions of crate format that the proofs of code cite, in proofs/.
#![tactic(auto)]

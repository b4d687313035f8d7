// No code: what reading a column list once gives, as theorems on the definitions of crate format, in proofs/.
#![tactic(auto)]

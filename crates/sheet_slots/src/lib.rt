// No code: the values of a column that passes, and the slot of a row, in proofs/.
#![tactic(auto)]

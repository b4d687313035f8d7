// No code: the fields that a cursor for each row stands in front of, in specs/, and laws of cursors that move on, in proofs/.
#![tactic(auto)]

// The laws of candidates and of their winners: they stand in specs/, and what rests on them in proofs/; no code belongs to them.
#![tactic(auto)]

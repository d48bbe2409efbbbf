// Two feeds in one, demand 3 as item 7 has it: it stands in specs/, and what rests on it in proofs/; no code belongs to it.
#![tactic(auto)]

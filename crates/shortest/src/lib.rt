// The shortest list that forwards the same, item 12 of document 02: this stands in specs/, and what rests on it in proofs/; no
// code belongs to it.
#![tactic(auto)]

// Swapped neighbours, item 8 of document 02: they stand in specs/, and no code belongs to them.
#![tactic(auto)]

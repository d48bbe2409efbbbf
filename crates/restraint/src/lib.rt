// The laws of a front before a table, item 14 of document 02: they stand in specs/, and no code belongs to them.
#![tactic(auto)]

// A front before a table, item 14 of document 02: its definitions and what follows from them stand in specs/, and no code belongs
// to them.
#![tactic(auto)]

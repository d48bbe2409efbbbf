// How many prefixes lie inside a given one, item 10 of document 02: this stands in specs/, and no code belongs to it.
#![tactic(auto)]

// The candidates that a tree of arrays holds: definitions and laws in specs/, and no code belongs to them.
#![tactic(auto)]

// Arrays as functions of their number, a tree of them: definitions and laws in specs/, and no code belongs to them.
#![tactic(auto)]

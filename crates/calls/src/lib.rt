// What the promises of the public calls come to: it stands in specs/, and no code belongs to it.
#![tactic(auto)]

// What becomes of the shortest list's bytes, fed to the other calls: it stands in specs/, and no code belongs to it.
#![tactic(auto)]

// Plain logic, of which nothing speaks of routes: it stands in specs/, and no code belongs to it.
#![tactic(auto)]

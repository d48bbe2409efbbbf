// Candidates as bytes: the run of a feed that encodes records, its replies read back, the round trip. They stand in specs/, and
// no code belongs to them.
#![tactic(auto)]

// Candidates, their winners, the answers, the bytes and the run as definitions, with the worked cases: they stand in specs/,
// and no code belongs to them.
#![tactic(auto)]

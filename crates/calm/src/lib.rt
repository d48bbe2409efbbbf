// The blocks of one array, of its slots and links alone: laws.
#![tactic(auto)]

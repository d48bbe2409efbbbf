// The claim: the three demands and the items of the requests, said of the calls that a program in C links. No code; specs/ has
// the statements and their proofs.
#![tactic(auto)]

// What is promised of the rules over every list of calls: demand 3, the replay of conditions, the waiting promise. No code: the statements
// are definitions of crate `rules`, `proofs/Lib.antt` says in which order the proofs are read.

#![tactic(auto)]

// The rules of document 01 as definitions, with the statements of demand 3, of the replay and of the waiting promise over them. No code:
// `specs/` holds the definitions and the statements, `proofs/` what is proved of them without walking through calls; crate `rules_promises`
// has the theorems.

#![tactic(auto)]

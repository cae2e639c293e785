// The printed key: what the line program prints is the text of the answers, and its device lines are those of the serial run in the
// hub's order. No code: `specs/Key.antt` holds the definitions and the statements, `proofs/Theorem.antt` the theorems.

#![tactic(auto)]

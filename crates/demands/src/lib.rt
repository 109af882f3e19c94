// What a longer transcript keeps, on the definitions. There is no code: specs/claims has the statements, proofs/Keeping.antt and
// proofs/Witness.antt the theorems.
#![tactic(auto)]

// The rules of the block directory, demand 3 and their proofs: definitions alone, no code.
#![tactic(auto)]

// This crate is its specs/ and proofs/: demand 3 about what the exported calls return, and for a caller who asks the room questions.
#![tactic(auto)]

// This crate is its specs/ and proofs/: what an accepted verdict of the verifier that runs says of the rows, when its claims are their values.
#![tactic(auto)]

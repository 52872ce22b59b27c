// This crate is its specs/ and proofs/: what the words that the exported calls of verifying and evaluating return say of a sheet.
#![tactic(auto)]

// This crate is its specs/: prover and verifier as pure functions, and the theorem about them.
#![tactic(auto)]

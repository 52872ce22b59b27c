// This crate is its specs/: vectors of SHAKE128 as theorems over the definition, computed by the checker.
#![tactic(auto)]

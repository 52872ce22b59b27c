// This crate is its specs/: the claims of an honest proof are what the evaluation of the sheet answers at the point.
#![tactic(auto)]

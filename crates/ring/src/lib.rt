// This crate is its specs/: commutative rings, and the solver for equations in them.
#![tactic(auto)]

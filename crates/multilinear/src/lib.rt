// This crate is its specs/: multilinear tables over a commutative ring, and their laws.
#![tactic(auto)]

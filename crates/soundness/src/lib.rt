// This crate is its specs/: the verifier is sound. What it accepts is true of the rows, or a challenge fell among the few that are bad at their step.
#![tactic(auto)]

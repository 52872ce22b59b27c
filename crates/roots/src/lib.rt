// This crate is its specs/ and proofs/: live mode's row check passes exactly where the sum of all rows is not over zero.
#![tactic(auto)]

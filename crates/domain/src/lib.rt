// This crate is its specs/: base and extension are fields, so a product is zero only where a factor is, and a sum of fractions is over zero only where one of them is.
#![tactic(auto)]

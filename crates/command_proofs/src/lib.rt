// Proofs made and checked: `prove`, `verify` and `replay`.
#![tactic(auto)]

pub mod challenges; // where a run's challenges come from
pub mod compare; // the claims of an accepted proof beside a sheet
pub mod notes; // what an answer does not show by itself
pub mod prove;
mod refused; // a verifier's refusal in words
pub mod replay;
mod verdict; // a verifier's answer in words
pub mod verify;

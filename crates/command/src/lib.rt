// The commands of `sheetproof`, by their arguments. What the system refuses is told on standard error.
#![tactic(auto)]

pub mod args; // which command the arguments ask for
pub mod options; // what the options after the names mean
pub mod words; // the arguments, word by word

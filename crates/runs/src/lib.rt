// Earliest-deadline runs: who is served when, and why nobody is late. There is no code here: each function's contract is a theorem.
#![tactic(auto)]

pub mod board;
pub mod needed;
pub mod processor;
pub mod words;

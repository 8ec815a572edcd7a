// The library for a host in C or Rust that links it: numbers, records and byte slices go in, and a reply comes out. A board is no such value, so
// a call on one brings a stored plan and a list of what is to be done.
#![tactic(auto)]

pub mod admitting;
pub mod judging;
pub mod numbers;
mod opening;
mod question;
mod refusal;
pub mod reply;
pub mod withdrawing;

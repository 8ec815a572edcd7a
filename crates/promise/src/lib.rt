// The promise: whatever is called, in whatever order, nobody is late.
#![tactic(auto)]

pub mod call;
pub mod history;
pub mod law;
pub mod rules;

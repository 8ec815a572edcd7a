// A guest: a judge and a placement rule that no part of the service knows, written from the traits alone, and the
// promise for them.
#![tactic(auto)]

pub mod odd_first;
pub mod same_period;
pub mod side;
pub mod theorems;
pub mod visit;

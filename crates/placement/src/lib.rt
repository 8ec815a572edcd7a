// Which of several processors a row goes to: ranks and their order, rules that rank, and the choice among candidates.
#![tactic(auto)]

pub mod best;
pub mod candidate;
pub mod fewest;
pub mod first;
pub mod listed;
pub mod load;
pub mod order;
pub mod rank;
pub mod rule;

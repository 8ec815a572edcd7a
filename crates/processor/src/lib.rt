// One processor: its rows, what it answers and what it takes.
#![tactic(auto)]

pub mod adding;
pub mod asking;
pub mod few;
pub mod keys;
pub mod look;
pub mod pushing;
pub mod rows;
pub mod withdrawal;

// The judges: density, demand, and either of any two.
#![tactic(auto)]

mod allowance;
mod curve;
pub mod demand;
pub mod demand_judge;
pub mod density;
pub mod either;
pub mod setting;
pub mod sizing;
pub mod worked;

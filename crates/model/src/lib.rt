// What is reserved: timings, rows, their shares and demand, what a judge is, and the refusals.
#![tactic(auto)]

pub mod fault;
pub mod judge;
pub mod kind;
pub mod limits;
pub mod row;
pub mod share;
pub mod theorems;
pub mod timing;
pub mod wanted;

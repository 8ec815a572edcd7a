// The board: processors that hold rows, and the calls that an admission service makes on them.
#![tactic(auto)]

pub mod admission;
pub mod admit;
pub mod board;
pub mod cut;
pub mod gathered;
pub mod keys;
pub mod look;
mod offer;
pub mod placing;
pub mod plan;
pub mod setup;
pub mod splitting;
pub mod tail;
pub mod withdraw;

// The stored plan: a board's plan as bytes, saved and loaded. docs/stored-plan.md has the format, byte by byte.
#![tactic(auto)]

mod chains;
mod decode;
mod encode;
mod entry;
pub mod fault;
mod filling;
mod image;
mod judging;
mod keys;
mod layout;
mod lists;
pub mod load;
mod records;
mod refill;
pub mod save;
pub mod theorems;
mod unpack;
mod writer;
mod writing;

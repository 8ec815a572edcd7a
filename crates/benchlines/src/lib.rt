// What the workbench's lines say: the task of a line, its numbers, its hexadecimal digits, and the board that the first line asks for. Needs no board.
#![tactic(auto)]

pub mod hex;
pub mod numbers;
pub mod opening;
mod settings;
pub mod task;

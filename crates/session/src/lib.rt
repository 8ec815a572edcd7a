// The console's line call, and the session that a program keeps over an input.
#![tactic(auto)]

pub mod answer;
pub mod driver;
pub mod examples;
pub mod first;
pub mod reader;
pub mod reply;

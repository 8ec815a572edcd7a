// The lines of the console: what they ask and how they are answered; and the reader and the choice of a judge that the workbench shares.
#![tactic(auto)]

pub mod choice;
mod chunk;
pub mod command;
pub mod examples;
pub mod feeding;
pub mod fields;
pub mod line;
pub mod numbers;
pub mod reader;
pub mod reply;
pub mod setup;

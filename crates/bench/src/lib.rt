// The workbench's line call: stored plans, rows, judgements and allowances beside admissions, each asked for by a line of text.
#![tactic(auto)]

mod acting;
pub mod answer;
mod asking;
pub mod driver;
pub mod refusal;
pub mod reply;
mod telling;
pub mod timings;

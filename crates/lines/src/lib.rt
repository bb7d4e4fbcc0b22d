// The lines of a text, each read at a cursor: its form first, then the limits of its numbers, then whether it cancels.
#![tactic(auto)]

pub mod answer;
pub mod count;
mod ending;
pub mod hidden;
pub mod rule;
mod signed;
mod spelled;

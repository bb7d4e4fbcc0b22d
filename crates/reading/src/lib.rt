// Texts read: checked line by line, with a table filled meanwhile where it may be; and a table filled from a text that passed.
#![tactic(auto)]

pub mod check;
pub mod fill;
mod order;
pub mod read;

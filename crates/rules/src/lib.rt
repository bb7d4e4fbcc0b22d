// Rules by value, the limits of papers, the hidden set and the numbered refusals: the vocabulary of every crate above.
#![tactic(auto)]

pub mod hidden;
pub mod literal;
pub mod paper;
pub mod refusal;
pub mod rule;
pub mod sheet;

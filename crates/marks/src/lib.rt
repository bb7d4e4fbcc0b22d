// Marks of rules that lost a half (document 02, [6]), one byte for each place of a table; and a table that carries them in its words.
#![tactic(auto)]

pub mod bytes;
pub mod doubled;
pub mod rule;

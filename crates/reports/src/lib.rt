// What the programs print, from bytes to bytes: they only read and write.
#![tactic(auto)]

pub mod key;
pub mod mark;
mod refusal;
mod room;

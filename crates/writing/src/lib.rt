// Tables written as texts. Each part of a text has a function that measures it and one that writes it where there is room.
#![tactic(auto)]

mod header;
pub mod line;
pub mod write;

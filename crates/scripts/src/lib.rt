// Scripts marked against sheets, both as texts.
#![tactic(auto)]

mod filled;
mod once;
pub mod own;
pub mod pair;
pub mod reply;
pub mod room;
mod stack;
pub mod texts;

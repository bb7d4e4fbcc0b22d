// The key of a sheet and an assignment of a table, in place and with one lent workspace.
#![tactic(auto)]

pub mod assignment;
pub mod breaking;
mod checks;
pub mod copies;
pub mod decide;
pub mod key;
pub mod live;
pub mod room;
pub mod turns;

// Many questions to one sheet: rules of which an examiner wants to know whether every assignment of the sheet meets them (document 02, [3]).
#![tactic(auto)]

pub mod answer;
pub mod ask;
mod check;
mod list;
pub mod reply;

// Tables of rules: one word for each term over n quantities (document 01, 'The table').
#![tactic(auto)]

pub mod given;
pub mod limit;
pub mod names;
pub mod place;
pub mod reply;
pub mod table;

// Bank sheets read: texts of sheets with their rules in place order, so that each table has, with its n and hidden set, one text (document 02, [5]).
#![tactic(auto)]

pub mod check;
pub mod read;

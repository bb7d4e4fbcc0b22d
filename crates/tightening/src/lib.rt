// The tightest table: the least bound of every term, in one table and O(n³) steps; the tight key call, which makes it of a sheet's key; and the first rule of a table that is below the word of
// another one.
#![tactic(auto)]

pub mod below;
pub mod key;
pub mod tighten;

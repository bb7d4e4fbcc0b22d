// Hiding one quantity of a table in place (document 01, 'Hiding'), and choosing a value for one, given those of others ('Finding an assignment').
// Every function here that adds words asks that the sums fit; who calls it has shown that.
// Kept: the two rows of a step stay two slices that the caller lends, `plus` and `minus`, for the clauses of `hide`, `choose` and `pair` speak of each (`StepReady`) and may not change.
#![tactic(auto)]

mod bare;
mod bounds;
pub mod choose;
pub mod hide;
pub mod pair;
mod row;
mod word;

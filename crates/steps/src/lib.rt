// A hiding step that can be followed: the sheet's table as it stands when the step's first blocks are done (document 02, [4]).
#![tactic(auto)]

mod all;
pub mod step;

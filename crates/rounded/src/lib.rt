// The key call with marks (document 02, [6]): document 01's key, and beside each of its rules whether it rests on a half that was lost.
#![tactic(auto)]

mod beside;
mod doubled;
mod hide;
pub mod key;
mod pairs;

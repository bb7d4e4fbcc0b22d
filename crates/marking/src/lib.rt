// Marking two tables: the verdict on a script, the rule that it carries and the assignment that shows it.
#![tactic(auto)]

mod breaking;
mod check;
pub mod mark;
pub mod rule_words;
pub mod verdict;

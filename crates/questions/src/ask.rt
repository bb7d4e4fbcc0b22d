// The call: a list of questions put to one sheet.
// Kept: the table, the list and the workspace stay parameters of their own: what may not change, as the clause of `ask` (`QuestionsAsked`) speaks of each, and the C interface lends each.
ghost use Rattle.std.specs.Prelude.{length};
ghost use Rattle.questions.specs.Inner.{AskReady};
ghost use Rattle.questions.specs.Promises.{QuestionsAsked};

use crate::reply::{Answers, Asked};
use crate::{check, list};
use rules::refusal::Refusal;
use tightening::key;

// Tightens the sheet once, in the workspace, with no quantity hidden, and answers every question from one word of the tight table; or 5 where no integers satisfy the sheet.
fn answer_list(n: usize, table: &[i64], questions: &[i64], workspace: &mut [i64]) -> Asked
    requires { AskReady n table.now questions.now (length workspace.old) }
    ensures { QuestionsAsked n table.now questions.now workspace.old result workspace.new }
{
    if key::tighten_sheet(n, 0, table, workspace) {
        return Err(Refusal::NoAssignment);
    }
    Ok(Answers {
        count: list::count(questions.len()),
        bits: list::answer_all(n, workspace, questions),
    })
}

// Answers each question of a list, three words each: whether every assignment of the sheet's table over `n` quantities meets it. The workspace needs 2n² words; where the questions are answered
// these are the tight table.
pub fn ask(n: usize, table: &[i64], questions: &[i64], workspace: &mut [i64]) -> Asked
    ensures { QuestionsAsked n table.now questions.now workspace.old result workspace.new }
{
    check::check(n, table, questions, workspace.len())?;
    answer_list(n, table, questions, workspace)
}

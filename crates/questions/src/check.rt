// The checks of the call before 5.
ghost use Rattle.questions.specs.Inner.{AskChecked};

use crate::list;
use rules::paper;
use rules::paper::Paper;
use rules::refusal::Refusal;
use tables::reply::Reply;
use tables::{limit, table};

// An examiner puts at most so many questions.
const MOST_QUESTIONS: usize = 64;

// The call's first refusal before 5 with a workspace of so many words, or done: 1, 8, 6, then 3 for the table's words and the questions, and 4.
pub(crate) fn check(n: usize, table: &[i64], questions: &[i64], workspace: usize) -> Reply
    ensures { AskChecked n table.now questions.now workspace result }
{
    if !table::serves(n, table.len()) {
        return Err(Refusal::Size);
    }
    let count = list::count(questions.len());
    if !(1..=MOST_QUESTIONS).contains(&count) {
        return Err(Refusal::ListSize);
    }
    let needed = table::size(n);
    if workspace < needed {
        return Err(Refusal::TooShort { needed });
    }
    let most = paper::bound_limit(Paper::Sheet, n, 0);
    if !limit::is_table_in(table, needed, most) {
        return Err(Refusal::OutOfLimit { line: 0 });
    }
    list::check(n, questions)
}

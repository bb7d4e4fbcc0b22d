// The assignment call: integers that satisfy a table, or the refusal that there are none.
ghost use Rattle.keys.specs.Inner.{Fillable, Filled, AssignmentChecked};
ghost use Rattle.keys.specs.Promises.{Assigned};

use crate::live::Part;
use crate::{checks, decide, turns};
use rules::hidden::Set;
use rules::paper;
use rules::paper::Paper;
use rules::refusal::Refusal;
use tables::reply::Reply;
use tables::{limit, table};

// Chooses a value for each quantity outside the set from a table in which these are eliminated; 0 for those of the set, which no rule names.
pub fn fill(n: usize, set: Set, table: &[i64], values: &mut [i64])
    requires { Fillable n set table.now values.old }
    ensures { Filled n set table.now values.old values.new }
{
    words::fill(values, 0, n, 0);
    turns::read_back(n, set, Part::Outside, table, values);
}

// The assignment call's checks before 5: its first refusal, or done.
fn check(n: usize, table: &[i64], workspace: usize, values: usize) -> Reply
    ensures { AssignmentChecked n table.now workspace values result }
{
    checks::lent(n, table.len(), workspace)?;
    if values < n {
        return Err(Refusal::TooShort { needed: n });
    }
    let most = paper::bound_limit(Paper::Sheet, n, 0);
    if !limit::is_table_in(table, table::size(n), most) {
        return Err(Refusal::OutOfLimit { line: 0 });
    }
    Ok(())
}

// Writes integers that satisfy every rule of the table to the first `n` words of `values`. Which integers is left free; they lie between
// -2 ^ 62 and 2 ^ 62.
pub fn assignment(n: usize, table: &[i64], workspace: &mut [i64], values: &mut [i64]) -> Reply
    ensures { Assigned n table.now workspace.old values.old result workspace.new values.new }
{
    check(n, table, workspace.len(), values.len())?;
    if decide::decide(n, 0, table, workspace) {
        return Err(Refusal::NoAssignment);
    }
    fill(n, 0, workspace, values);
    Ok(())
}

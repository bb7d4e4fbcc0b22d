// The call: the sheet's table is replaced by the table at a point of a hiding step.
ghost use Rattle.std.specs.Prelude.{◌≡◌};
ghost use Rattle.elimination.specs.Inner.{Ready};
ghost use Rattle.keys.specs.Inner.{RowsServe};
ghost use Rattle.steps.specs.Steps.{step_at};
ghost use Rattle.steps.specs.Inner.{StepChecked};
ghost use Rattle.steps.specs.Promises.{StepFollowed};

use crate::all;
use elimination::{hide, pair};
use keys::room::Rows;
use keys::{decide, key, room};
use rules::hidden::Set;
use rules::refusal::Refusal;
use tables::reply::Reply;

// Does what `follow` does with list and rows lent, whose words are free.
fn follow_in<const LIST: usize, const ROW: usize>(
    n: usize,
    table: &mut [i64],
    j: usize,
    blocks: usize,
    rows: &mut Rows<LIST, ROW>,
)
    requires { Ready n j table.old × RowsServe n LIST ROW }
    ensures { table.new ≡ step_at n j blocks table.old }
{
    all::list(n, &mut rows.list);
    let plus = &mut rows.plus;
    let minus = &mut rows.minus;
    if blocks <= n {
        pair::pair(n, table, j, &rows.list[..blocks], plus, minus);
    } else {
        hide::hide(n, table, j, &rows.list[..n], plus, minus);
    }
}

// Does the first `blocks` blocks of the step that hides quantity `j + 1`, and, where that is more than `n`, all of them and the clearing. List and rows have room for every `n`: this step is there to be read.
fn follow(n: usize, table: &mut [i64], j: usize, blocks: usize)
    requires { Ready n j table.old }
    ensures { table.new ≡ step_at n j blocks table.old }
{
    let mut rows = Rows::<{ room::LARGE }, { room::LARGE_ROW }>::new();
    follow_in(n, table, j, blocks, &mut rows);
}

// The call's checks before 5: its first refusal, or done.
fn check(
    n: usize,
    before: Set,
    quantity: usize,
    blocks: usize,
    table: &[i64],
    workspace: usize,
) -> Reply
    ensures { StepChecked n before quantity blocks table.now workspace result }
{
    key::check(n, before, table, workspace)?;
    if n + 1 < blocks || quantity < 1 || n < quantity {
        return Err(Refusal::OutOfLimit { line: 0 });
    }
    Ok(())
}

// Replaces the sheet's table over `n` quantities by the table at a point of the step that hides `quantity`, those of the set `before` hidden before it: as it stands when the first `blocks` blocks are done, and, with
// `n + 1` for them, when the quantity's places are cleared too.
// Kept: the point is a number and no enum: the C interface hands it on so, and `StepFollowed` gives 3 for a number past it.
pub fn step(
    n: usize,
    before: Set,
    quantity: usize,
    blocks: usize,
    table: &mut [i64],
    workspace: &mut [i64],
) -> Reply
    ensures { StepFollowed n before quantity blocks table.old workspace.old result table.new workspace.new }
{
    check(n, before, quantity, blocks, table, workspace.len())?;
    if decide::decide(n, 0, table, workspace) {
        return Err(Refusal::NoAssignment);
    }
    key::hide_set(n, before, table);
    follow(n, table, quantity - 1, blocks);
    Ok(())
}

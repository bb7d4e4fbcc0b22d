// The key call: the sheet's table is replaced by its key.
ghost use Rattle.std.specs.Prelude.{length};
ghost use Rattle.rules.specs.Refusing.{passed, AllMet};
ghost use Rattle.keys.specs.Keys.{key_of};
ghost use Rattle.keys.specs.Meaning.{key_needs_then};
ghost use Rattle.keys.specs.Inner.{RowsServe, TableServes, Fits, HideReady, MemberHidden, SetHidden, KeyTried, KeyChecked};
ghost use Rattle.keys.specs.Promises.{Keyed};

use crate::live::Part;
use crate::room::Rows;
use crate::{checks, decide, live, room};
use rules::hidden::Set;
use rules::paper::Paper;
use rules::refusal::Refusal;
use rules::{hidden, paper};
use tables::reply::Reply;
use tables::{limit, table};

// Hides quantity `j + 1` where the set has it, and answers whether a contradiction is met; of the set none before it is named by a rule any more.
fn hide_member<const LIST: usize, const ROW: usize>(
    n: usize,
    set: Set,
    table: &mut [i64],
    j: usize,
    rows: &mut Rows<LIST, ROW>,
) -> bool
    requires { HideReady n set j table.old × RowsServe n LIST ROW }
    ensures { MemberHidden n set j table.old result table.new }
{
    if !hidden::is_hidden(set, j + 1) {
        return false;
    }
    let Rows { list, plus, minus } = rows;
    let count = live::list(n, set, Part::Inside, j + 1, list);
    elimination::hide::hide(n, table, j, &list[..count], plus, minus)
}

// Does what `hide_set` does, with rows of one size.
fn hide_members<const LIST: usize, const ROW: usize>(n: usize, set: Set, table: &mut [i64]) -> bool
    requires { Fits n table.old × RowsServe n LIST ROW }
    ensures { SetHidden n set table.old result table.new }
{
    let mut rows = Rows::<LIST, ROW>::new();
    for j in 0..n {
        if hide_member(n, set, table, j, &mut rows) {
            return true;
        }
    }
    false
}

// Hides each quantity of the set in increasing number, and answers whether a contradiction is met, at which it stops.
pub fn hide_set(n: usize, set: Set, table: &mut [i64]) -> bool
    requires { Fits n table.old }
    ensures { SetHidden n set table.old result table.new }
{
    if n <= room::SMALL {
        hide_members::<{ room::SMALL }, { room::SMALL_ROW }>(n, set, table)
    } else if n <= room::MIDDLE {
        hide_members::<{ room::MIDDLE }, { room::MIDDLE_ROW }>(n, set, table)
    } else {
        hide_members::<{ room::LARGE }, { room::LARGE_ROW }>(n, set, table)
    }
}

// Does what `try_key` does, with a copy of one size. The key is made in the workspace; a contradiction is met while hidden quantities are hidden, or in a copy of the key, where the visible
// ones are eliminated. Where there is none, the table becomes the key.
fn make_key<const TABLE: usize>(
    n: usize,
    set: Set,
    table: &mut [i64],
    workspace: &mut [i64],
) -> bool
    requires { AllMet (key_needs_then n set table.old (length workspace.old) passed) × TableServes n TABLE }
    ensures { KeyTried key_of n set table.old workspace.old result table.new workspace.new }
{
    let m = table::size(n);
    words::copy(workspace, table, m);
    if hide_set(n, set, workspace) {
        return true;
    }
    let mut copy = [0; TABLE];
    if decide::decide(n, set, workspace, &mut copy) {
        return true;
    }
    words::copy(table, workspace, m);
    false
}

// Makes the key of the sheet's table, and answers whether no integers satisfy the sheet.
fn try_key(n: usize, set: Set, table: &mut [i64], workspace: &mut [i64]) -> bool
    requires { AllMet (key_needs_then n set table.old (length workspace.old) passed) }
    ensures { KeyTried key_of n set table.old workspace.old result table.new workspace.new }
{
    if n <= room::SMALL {
        make_key::<{ room::SMALL_TABLE }>(n, set, table, workspace)
    } else if n <= room::MIDDLE {
        make_key::<{ room::MIDDLE_TABLE }>(n, set, table, workspace)
    } else {
        make_key::<{ table::LARGEST }>(n, set, table, workspace)
    }
}

// The key call's checks before 5: its first refusal, or done.
pub fn check(n: usize, set: Set, table: &[i64], workspace: usize) -> Reply
    ensures { KeyChecked n set table.now workspace result }
{
    checks::lent(n, table.len(), workspace)?;
    if !hidden::is_within(set, n) {
        return Err(Refusal::OutOfLimit { line: 0 });
    }
    let most = paper::bound_limit(Paper::Sheet, n, set);
    if !limit::is_table_in(table, table::size(n), most) {
        return Err(Refusal::OutOfLimit { line: 0 });
    }
    Ok(())
}

// Replaces the sheet's table over `n` quantities by its key, the quantities of the set `hidden` hidden. The key is made in the workspace, and 'no assignment' decided
// before the table is changed.
pub fn key(n: usize, hidden: Set, table: &mut [i64], workspace: &mut [i64]) -> Reply
    ensures { Keyed n hidden table.old workspace.old result table.new workspace.new }
{
    check(n, hidden, table, workspace.len())?;
    if try_key(n, hidden, table, workspace) {
        return Err(Refusal::NoAssignment);
    }
    Ok(())
}

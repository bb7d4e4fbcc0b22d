// The key call: the sheet's table is replaced by its key, and the marks by the key's.
ghost use Rattle.std.specs.Prelude.{◌≤◌, length};
ghost use Rattle.places.specs.Numbering.{block_start};
ghost use Rattle.rules.specs.Refusing.{passed, AllMet};
ghost use Rattle.tables.specs.Meaning.{NoneAbove};
ghost use Rattle.keys.specs.Inner.{TableServes};
ghost use Rattle.rounded.specs.Meaning.{marked_key_needs_then};
ghost use Rattle.rounded.specs.Promises.{MarkedKeyed};
ghost use Rattle.rounded.specs.Inner.{MarkedKeyTried, MarkedKeyChecked};

use crate::hide;
use keys::{decide, key, room};
use marks::bytes;
use rules::hidden::Set;
use rules::refusal::Refusal;
use tables::reply::Reply;
use tables::table;

// Does what `try_key` does, with room on the stack for a copy and for marks, of one size. The key is made in the workspace, with its marks in `kept`; a contradiction is met while hidden quantities are hidden, or in `copy`, a copy
// of the key, where the visible ones are eliminated. Where there is none, table and marks become the key's.
fn make_key<const TABLE: usize>(
    n: usize,
    set: Set,
    table: &mut [i64],
    marks: &mut [u8],
    workspace: &mut [i64],
) -> bool
    requires { AllMet (marked_key_needs_then n set table.old marks.old (length workspace.old) passed) × NoneAbove (block_start n) table.old × TableServes n TABLE }
    ensures { MarkedKeyTried n set table.old marks.old workspace.old result table.new marks.new workspace.new }
{
    let mut copy = [0; TABLE];
    let mut kept = [0; TABLE];
    let m = table::size(n);
    words::copy(workspace, table, m);
    bytes::copy(&mut kept, marks, m);
    if hide::hide_set(n, set, workspace, &mut kept, &mut copy) {
        return true;
    }
    if decide::decide(n, set, workspace, &mut copy) {
        return true;
    }
    words::copy(table, workspace, m);
    bytes::copy(marks, &kept, m);
    false
}

// Makes the key of the sheet's table with its marks, and answers whether no integers satisfy the sheet.
fn try_key(n: usize, set: Set, table: &mut [i64], marks: &mut [u8], workspace: &mut [i64]) -> bool
    requires { AllMet (marked_key_needs_then n set table.old marks.old (length workspace.old) passed) × NoneAbove (block_start n) table.old }
    ensures { MarkedKeyTried n set table.old marks.old workspace.old result table.new marks.new workspace.new }
{
    if n <= room::SMALL {
        make_key::<{ room::SMALL_TABLE }>(n, set, table, marks, workspace)
    } else if n <= room::MIDDLE {
        make_key::<{ room::MIDDLE_TABLE }>(n, set, table, marks, workspace)
    } else {
        make_key::<{ table::LARGEST }>(n, set, table, marks, workspace)
    }
}

// The call's checks before 5: its first refusal, or done. Too few marks are 1, as too few words are, and come before 6.
fn check(n: usize, set: Set, table: &[i64], marks: &[u8], workspace: usize) -> Reply
    ensures { MarkedKeyChecked n set table.now marks.now workspace result }
{
    let m = table::size(n);
    if marks.len() < m {
        return Err(Refusal::Size);
    }
    key::check(n, set, table, workspace)?;
    if !bytes::are_marks(marks, m) {
        return Err(Refusal::OutOfLimit { line: 0 });
    }
    Ok(())
}

// Replaces the sheet's table over `n` quantities by its key, the quantities of the set `hidden` hidden, and its marks by the key's. The key is made in the workspace, and 'no assignment' decided
// before table or marks are changed.
// Kept: the marks are bytes in a slice beside the table's words, 0 or 1 each: what may not change: `MarkedKeyed` speaks of table and marks, and gives 3 for another byte; and memory is lent.
pub fn key(
    n: usize,
    hidden: Set,
    table: &mut [i64],
    marks: &mut [u8],
    workspace: &mut [i64],
) -> Reply
    ensures { MarkedKeyed n hidden table.old marks.old workspace.old result table.new marks.new workspace.new }
{
    check(n, hidden, table, marks, workspace.len())?;
    if try_key(n, hidden, table, marks, workspace) {
        return Err(Refusal::NoAssignment);
    }
    Ok(())
}

// The tight key call: the sheet's table is replaced by its tightest key.
ghost use Rattle.std.specs.Prelude.{length};
ghost use Rattle.rules.specs.Refusing.{passed, AllMet};
ghost use Rattle.keys.specs.Meaning.{key_needs_then};
ghost use Rattle.tightening.specs.Promises.{TightTried, TightKeyed};

use crate::tighten;
use keys::live::Part;
use keys::{key, live, room};
use rules::hidden::Set;
use rules::refusal::Refusal;
use tables::reply::Reply;
use tables::table;

// Makes the tight key of the sheet's table in the workspace, and answers whether no integers satisfy the sheet: a contradiction is met while hidden quantities are hidden, or while visible ones
// are paired. The list of visible quantities is short: one size of room serves every `n`.
pub fn tighten_sheet(n: usize, set: Set, table: &[i64], workspace: &mut [i64]) -> bool
    requires { AllMet (key_needs_then n set table.now (length workspace.old) passed) }
    ensures { TightTried n set table.now workspace.old result workspace.new }
{
    words::copy(workspace, table, table::size(n));
    if key::hide_set(n, set, workspace) {
        return true;
    }
    let mut list = [0; room::LARGE];
    let count = live::list(n, set, Part::Outside, 0, &mut list);
    tighten::tighten(n, workspace, &list[..count])
}

// Replaces the sheet's table over `n` quantities by its tightest key, the quantities of the set `hidden` hidden. It is made in the workspace, and 'no assignment' decided on the way, before the
// table is changed. Each quantity is hidden or paired once, in O(n²) steps, and strengthening walks the table once: O(n³) steps in all.
pub fn tight_key(n: usize, hidden: Set, table: &mut [i64], workspace: &mut [i64]) -> Reply
    ensures { TightKeyed n hidden table.old workspace.old result table.new workspace.new }
{
    key::check(n, hidden, table, workspace.len())?;
    if tighten_sheet(n, hidden, table, workspace) {
        return Err(Refusal::NoAssignment);
    }
    words::copy(table, workspace, table::size(n));
    Ok(())
}

// 'No assignment', decided in a copy of the table with all quantities that its rules name eliminated.
ghost use Rattle.std.specs.Prelude.{◌≤◌, length};
ghost use Rattle.places.specs.Numbering.{block_start};
ghost use Rattle.keys.specs.Inner.{RestFits, Decided};

use crate::live::Part;
use crate::turns;
use rules::hidden::Set;

// Whether no integers satisfy the table, whose rules name no quantity of the set. Where some do, the workspace has the table with all others eliminated, from which `assignment::fill`
// reads them.
pub fn decide(n: usize, set: Set, table: &[i64], workspace: &mut [i64]) -> bool
    requires { RestFits n set table.now × (block_start n ≤ length workspace.old) }
    ensures { Decided n set table.now workspace.old result workspace.new }
{
    words::copy(workspace, table, tables::table::size(n));
    turns::eliminate(n, set, Part::Outside, workspace)
}

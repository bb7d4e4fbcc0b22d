// A room on the stack for marking two texts, of a size that the caller names: tables and a workspace, which are cleared.
ghost use Rattle.std.specs.Prelude.{◌≤◌};
ghost use Rattle.scripts.specs.Marking.{count_in};
ghost use Rattle.scripts.specs.Inner.{TablesRoom};
ghost use Rattle.scripts.specs.Promises.{MarkedInOwnRoom};

use crate::once;
use crate::reply::TextMarking;

// Marks two texts in tables of `TABLE` words and a workspace of `WORKSPACE`, which have words enough for the sheet's n.
pub(crate) fn mark_in_room<const TABLE: usize, const WORKSPACE: usize>(
    sheet: &[u8],
    script: &[u8],
    values: &mut [i64],
) -> TextMarking
    requires { TablesRoom (count_in sheet.now) TABLE TABLE WORKSPACE × (TABLE ≤ 2048) × (WORKSPACE ≤ 4096) }
    ensures { MarkedInOwnRoom sheet.now script.now values.old result values.new }
{
    let mut sheet_table = [0; TABLE];
    let mut script_table = [0; TABLE];
    let mut workspace = [0; WORKSPACE];
    once::mark_once(
        sheet,
        script,
        &mut sheet_table,
        &mut script_table,
        &mut workspace,
        values,
    )
}

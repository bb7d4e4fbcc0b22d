// Marking two texts that are each read once: a table is filled while its text is checked, as it may be where the tables are the program's own.
ghost use Rattle.std.specs.Prelude.{length};
ghost use Rattle.scripts.specs.Marking.{count_in};
ghost use Rattle.scripts.specs.Inner.{TablesRoom};
ghost use Rattle.scripts.specs.Promises.{MarkedInOwnRoom};

use crate::reply::{Subject, TextMarking, about};
use crate::{filled, pair, room};
use reading::check;
use rules::paper::Paper;

// Marks the script's text against the sheet's, in tables and a workspace with words enough for the sheet's n; a script with another n is refused, so its table need not be filled. Their
// words are free after every reply.
pub(crate) fn mark_once(
    sheet: &[u8],
    script: &[u8],
    sheet_table: &mut [i64],
    script_table: &mut [i64],
    workspace: &mut [i64],
    values: &mut [i64],
) -> TextMarking
    requires { TablesRoom (count_in sheet.now) (length sheet_table.old) (length script_table.old) (length workspace.old) }
    ensures { MarkedInOwnRoom sheet.now script.now values.old result values.new }
{
    let header = about(
        Subject::Sheet,
        check::check_filling(sheet, Paper::Sheet, sheet_table),
    )?;
    let script_header = about(
        Subject::Script,
        check::check_filling(script, Paper::Script, script_table),
    )?;
    let lent = room::own_lengths(values.len());
    about(Subject::Both, pair::check_fit(header, script_header, lent))?;
    filled::mark_filled(
        header.quantities,
        header.hidden,
        sheet_table,
        script_table,
        workspace,
        values,
    )
}

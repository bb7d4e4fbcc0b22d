// Marking two texts: both are checked before anything lent is, then their tables are filled and marked.
ghost use Rattle.scripts.specs.Meaning.{lengths_of};
ghost use Rattle.scripts.specs.Inner.{PassedPair};
ghost use Rattle.scripts.specs.Promises.{TextsMarked};

use crate::pair::Pair;
use crate::reply::TextMarking;
use crate::room::Lengths;
use crate::{filled, pair};
use reading::fill;
use rules::paper::Paper;

// Marks two texts that passed, with words enough lent: fills both tables and marks them.
fn mark_passed(
    sheet: &[u8],
    script: &[u8],
    pair: Pair,
    sheet_table: &mut [i64],
    script_table: &mut [i64],
    workspace: &mut [i64],
    values: &mut [i64],
) -> TextMarking
    requires { PassedPair sheet.now script.now (lengths_of sheet_table.old script_table.old workspace.old values.old) pair }
    ensures { TextsMarked sheet.now script.now
        sheet_table.old script_table.old workspace.old values.old result
        sheet_table.new script_table.new workspace.new values.new }
{
    fill::fill(sheet, Paper::Sheet, pair.sheet, sheet_table);
    fill::fill(script, Paper::Script, pair.script, script_table);
    filled::mark_filled(
        pair.sheet.quantities,
        pair.sheet.hidden,
        sheet_table,
        script_table,
        workspace,
        values,
    )
}

// Marks the script's text against the sheet's. What is lent gets its words by the sheet's n: two tables, a workspace, and an assignment that shows a loose or
// tight verdict.
// Kept: what is lent as four slices. A struct of them is no plainer: each would be lent on out of it at every call, and the clauses speak of each by itself.
pub fn mark_texts(
    sheet: &[u8],
    script: &[u8],
    sheet_table: &mut [i64],
    script_table: &mut [i64],
    workspace: &mut [i64],
    values: &mut [i64],
) -> TextMarking
    ensures { TextsMarked sheet.now script.now
        sheet_table.old script_table.old workspace.old values.old result
        sheet_table.new script_table.new workspace.new values.new }
{
    let lent = Lengths {
        sheet: sheet_table.len(),
        script: script_table.len(),
        workspace: workspace.len(),
        values: values.len(),
    };
    let pair = pair::check_pair(sheet, script, lent)?;
    mark_passed(
        sheet,
        script,
        pair,
        sheet_table,
        script_table,
        workspace,
        values,
    )
}

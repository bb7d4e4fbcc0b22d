// Marking two tables: a script against a sheet.
// Kept: both tables, the workspace and the values stay parameters of their own, with `n` and the set: what may not change, as the clauses of `mark` and `verdict` (`TablesMarked`, `VerdictTold`) speak of each, and the C interface lends each.
ghost use Rattle.std.specs.Prelude.{true, ◌≡◌, ◌≤◌, length};
ghost use Rattle.rules.specs.Limits.{max_quantities};
ghost use Rattle.keys.specs.Keys.{refuted};
ghost use Rattle.marking.specs.Promises.{TablesMarked};
ghost use Rattle.marking.specs.Inner.{TablesAccepted, VerdictGiven, VerdictTold, NarrowReady, NarrowGiven};

use crate::verdict::{Marking, Verdict};
use crate::{breaking, check};
use keys::live::Part;
use keys::{assignment, decide, live, room};
use rules::hidden::Set;
use rules::rule::Rule;
use tables::{place, table};
use tightening::below;

// The verdict where no integers satisfy the sheet: the script is equal if none satisfy it either, and else loose with no rule.
fn unsatisfiable_sheet(
    n: usize,
    set: Set,
    sheet: &[i64],
    script: &[i64],
    workspace: &mut [i64],
    values: &mut [i64],
) -> Verdict
    requires tables_accepted { TablesAccepted n set sheet.now script.now (length workspace.old) (length values.old) }
    requires sheet_value { refuted n sheet.now ≡ true }
    ensures { VerdictGiven n set sheet.now script.now
        workspace.old values.old result workspace.new values.new }
{
    if decide::decide(n, set, script, workspace) {
        return Verdict::Equal;
    }
    assignment::fill(n, set, workspace, values);
    Verdict::Loose(Rule::trivial())
}

// The verdict on a script that is not loose: tight with its rule at the place, if there is one, and an assignment of the sheet that breaks it.
fn narrow_verdict(
    n: usize,
    set: Set,
    script: &[i64],
    tight: Option<usize>,
    workspace: &mut [i64],
    values: &mut [i64],
) -> Verdict
    requires { NarrowReady n set script.now tight workspace.old values.old }
    ensures { NarrowGiven n set script.now tight
        workspace.old values.old result workspace.new values.new }
{
    let Some(k) = tight else {
        return Verdict::Equal;
    };
    let rule = place::rule_at(k as u32, script[k]);
    breaking::break_sheet(n, set, rule, workspace, values);
    Verdict::Tight(rule)
}

// The verdict on tables that passed the checks, with room for `LIST` visible quantities. Rules of the script are compared with the least bounds of the key, then rules of the key with those of
// the script.
fn verdict_in<const LIST: usize>(
    n: usize,
    set: Set,
    sheet: &[i64],
    script: &[i64],
    workspace: &mut [i64],
    values: &mut [i64],
) -> Verdict
    requires tables_accepted { TablesAccepted n set sheet.now script.now (length workspace.old) (length values.old) }
    requires list_room { (n ≤ LIST) × (LIST ≤ max_quantities) }
    ensures { VerdictTold n set sheet.now script.now
        workspace.old values.old result workspace.new values.new }
{
    let mut list = [0; LIST];
    let count = live::list(n, set, Part::Outside, 0, &mut list);
    let visible = &list[..count];
    if breaking::reduce_sheet(n, set, visible, sheet, workspace) {
        return unsatisfiable_sheet(n, set, sheet, script, workspace, values);
    }
    let tight = below::first_below(n, visible, script, &workspace[table::size(n)..]);
    let loose = breaking::first_broken(n, visible, script, workspace);
    let Some(k) = loose else {
        return narrow_verdict(n, set, script, tight, workspace, values);
    };
    let rule = place::rule_at(k as u32, workspace[k]);
    breaking::break_script(n, set, script, rule, workspace, values);
    Verdict::Loose(rule)
}

// The verdict on tables that passed the checks, with what it means. The list of visible quantities is of the first room that is long enough for `n`.
pub fn verdict(
    n: usize,
    set: Set,
    sheet: &[i64],
    script: &[i64],
    workspace: &mut [i64],
    values: &mut [i64],
) -> Verdict
    requires { TablesAccepted n set sheet.now script.now (length workspace.old) (length values.old) }
    ensures { VerdictTold n set sheet.now script.now
        workspace.old values.old result workspace.new values.new }
{
    if n <= room::SMALL {
        verdict_in::<{ room::SMALL }>(n, set, sheet, script, workspace, values)
    } else if n <= room::MIDDLE {
        verdict_in::<{ room::MIDDLE }>(n, set, sheet, script, workspace, values)
    } else {
        verdict_in::<{ room::LARGE }>(n, set, sheet, script, workspace, values)
    }
}

// Marks the script against the sheet, both tables over `n` quantities, those of the set `hidden` hidden. For loose and tight, `values` gets an assignment that shows
// the verdict.
pub fn mark(
    n: usize,
    hidden: Set,
    sheet: &[i64],
    script: &[i64],
    workspace: &mut [i64],
    values: &mut [i64],
) -> Marking
    ensures { TablesMarked n hidden sheet.now script.now
        workspace.old values.old result workspace.new values.new }
{
    check::check(n, hidden, sheet, script, workspace.len(), values.len())?;
    Ok(verdict(n, hidden, sheet, script, workspace, values))
}

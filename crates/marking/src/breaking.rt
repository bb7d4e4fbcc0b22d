// The first rule by place that some assignment of a table breaks, and an assignment that breaks a rule. Whether a rule is broken is one comparison with the least bound of its
// term, so all of a table's rules are decided in O(n³) steps. The workspace has room for two tables: the sheet's at its front, with the hidden quantities eliminated, so that the places of
// visible ones have the key; at its back the one that is made the tightest or broken. For a loose verdict the script takes the front, for
// the key's rule is known then.
// Kept: two tables in one workspace: the C interface lends one, and memory is fixed.
ghost use Rattle.std.specs.Prelude.{◌≤◌, length};
ghost use Rattle.places.specs.Numbering.{block_start};
ghost use Rattle.keys.specs.Inner.{LiveAlone, Fits};
ghost use Rattle.marking.specs.Inner.{SheetReducible, SheetReduced, LeastBounds, ScriptComparable, FrontFound, ScriptBreakable, ScriptBroken, SomeSheetBreakable, SheetBroken};

use keys::live::Part;
use keys::{breaking, copies, turns};
use rules::hidden::Set;
use rules::rule::Rule;
use tables::table;
use tightening::{below, tighten};

// Eliminates the sheet's hidden quantities at the front of the workspace, writes the least bounds of its key to the back, and answers whether no integers satisfy the sheet.
pub(crate) fn reduce_sheet(
    n: usize,
    set: Set,
    visible: &[usize],
    sheet: &[i64],
    workspace: &mut [i64],
) -> bool
    requires { SheetReducible n set visible.now sheet.now workspace.old }
    ensures { SheetReduced n set sheet.now workspace.old result workspace.new }
{
    let m = table::size(n);
    words::copy(workspace, sheet, m);
    if turns::eliminate(n, set, Part::Inside, workspace) {
        return true;
    }
    copies::copy_key(n, set, workspace);
    tighten::tighten(n, &mut workspace[m..], visible)
}

// Writes the least bound of each term of the table to the front of `least`, and answers whether no integers satisfy the table.
fn least_bounds(n: usize, visible: &[usize], table: &[i64], least: &mut [i64]) -> bool
    requires { Fits n table.now × LiveAlone n visible.now table.now × (block_start n ≤ length least.old) }
    ensures { LeastBounds n table.now least.old result least.new }
{
    words::copy(least, table, table::size(n));
    tighten::tighten(n, least, visible)
}

// The first place of visible quantities at the front of the workspace whose rule some assignment of the script breaks. The back is free.
pub(crate) fn first_broken(
    n: usize,
    visible: &[usize],
    script: &[i64],
    workspace: &mut [i64],
) -> Option<usize>
    requires { ScriptComparable n visible.now script.now workspace.old }
    ensures { FrontFound n visible.now script.now workspace.old result workspace.new }
{
    let (front, back) = workspace.split_at_mut(table::size(n));
    if least_bounds(n, visible, script, back) {
        return None;
    }
    below::first_below(n, visible, front, back)
}

// Writes an assignment of the script that breaks the rule, 0 at hidden quantities.
pub(crate) fn break_script(
    n: usize,
    set: Set,
    script: &[i64],
    rule: Rule,
    workspace: &mut [i64],
    values: &mut [i64],
)
    requires { ScriptBreakable n set script.now rule workspace.old values.old }
    ensures { ScriptBroken n set script.now rule
        workspace.old values.old workspace.new values.new }
{
    words::copy(workspace, script, table::size(n));
    breaking::break_rule(n, set, workspace, rule, values);
}

// Writes an assignment of the sheet that breaks the rule: visible values of the key that break it, and hidden ones that complete them.
pub(crate) fn break_sheet(n: usize, set: Set, rule: Rule, workspace: &mut [i64], values: &mut [i64])
    requires { SomeSheetBreakable n set rule workspace.old values.old }
    ensures { SheetBroken n set rule
        workspace.old values.old workspace.new values.new }
{
    let m = table::size(n);
    copies::copy_key(n, set, workspace);
    breaking::break_rule(n, set, &mut workspace[m..], rule, values);
    turns::read_back(n, set, Part::Inside, workspace, values);
}

// An assignment of a table that breaks a rule: one of the table with the rule's opposite put in.
ghost use Rattle.keys.specs.Breaking.{RuleBreakable, RuleBroken};

use crate::live::Part;
use crate::{assignment, turns};
use rules::hidden::Set;
use rules::rule::Rule;
use tables::table;

// Writes an assignment of the table that breaks the rule, 0 for the quantities of the set, which neither names. The table's words are free.
pub fn break_rule(n: usize, set: Set, table: &mut [i64], rule: Rule, values: &mut [i64])
    requires { RuleBreakable n set table.old rule values.old }
    ensures { RuleBroken n set table.old rule values.old table.new values.new }
{
    // Never refused: the rule is one of the table.
    let _ = table::put(n, table, rule.opposite());
    turns::eliminate(n, set, Part::Outside, table);
    assignment::fill(n, set, table, values);
}

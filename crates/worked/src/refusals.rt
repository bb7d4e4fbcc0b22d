// The refusals of marking two tables over 3 quantities, each by its number and what is returned beside it: 0, or for 6 the length needed. A refusal leaves the
// assignment as it was, so its words are printed too.
use crate::sheet::Example;
use crate::{replies, sheet};
use marking::mark;
use rules::hidden::Set;
use rules::sheet::Sheet;

// The words of a table over 3 quantities.
const TABLE: usize = 18;

// Those of the workspace.
const WORKSPACE: usize = 36;

// All of these.
pub(crate) fn run(rt: &impl Print) {
    sizes(rt);
    lent(rt);
    limits(rt);
    for bound in [1_000_000_001, -1_000_000_001] {
        past_limit(rt, bound);
    }
    hidden_named(rt);
    limits_last(rt);
    names_last(rt);
}

// Marks and prints the reply.
fn mark(
    rt: &impl Print,
    n: usize,
    hidden: Set,
    paper: &[i64],
    script: &[i64],
    workspace: &mut [i64],
    values: &mut [i64],
) {
    let marking = mark::mark(n, hidden, paper, script, workspace, values);
    replies::print_marking(rt, &marking);
    replies::print_values(rt, values);
}

// Marks with enough lent for 3 quantities, after a heading.
pub(crate) fn mark_after(
    rt: &impl Print,
    heading: &str,
    n: usize,
    hidden: Set,
    paper: &[i64],
    script: &[i64],
) {
    sheet::head(rt, heading);
    let mut workspace = [0; WORKSPACE];
    let mut values = [7; 3];
    mark(rt, n, hidden, paper, script, &mut workspace, &mut values);
}

// 1: n outside 1 to 32, where the tables have 2n² words all the same, and a table shorter than that. Words past those of a table are not looked at.
fn sizes(rt: &impl Print) {
    let table = [Sheet::NO_RULE; TABLE];
    let short = [Sheet::NO_RULE; TABLE - 1];
    mark_after(rt, "tables marked: n 0", 0, 0, &table, &table);
    let large = [Sheet::NO_RULE; 2178];
    mark_after(rt, "n 33", 33, 0, &large, &large);
    mark_after(rt, "n 3, a sheet of 17 words", 3, 0, &short, &table);
    mark_after(rt, "n 3, a script of 17 words", 3, 0, &table, &short);
    mark_after(rt, "n 3, two tables of 18 words", 3, 0, &table, &table);
    let paper = [3, Sheet::NO_RULE, 1_000_000_001];
    let script = [3, Sheet::NO_RULE, -5_000_000_001, -5_000_000_001];
    mark_after(rt, "n 1, tables of 3 and 4 words", 1, 0, &paper, &script);
}

// 6: the workspace, then the assignment.
fn lent(rt: &impl Print) {
    let table = [Sheet::NO_RULE; TABLE];
    let mut workspace = [0; WORKSPACE];
    let mut small = [0; WORKSPACE - 1];
    let mut values = [7; 3];
    let mut few = [7; 2];
    sheet::head(rt, "a workspace of 35 words");
    mark(rt, 3, 0, &table, &table, &mut small, &mut values);
    sheet::head(rt, "an assignment of 2 words");
    mark(rt, 3, 0, &table, &table, &mut workspace, &mut few);
    sheet::head(rt, "both");
    mark(rt, 3, 0, &table, &table, &mut small, &mut few);
}

// 3: a hidden quantity past n, and none where sets and bounds are at their limits.
fn limits(rt: &impl Print) {
    let table = [Sheet::NO_RULE; TABLE];
    mark_after(rt, "quantity 4 hidden", 3, 0b1000, &table, &table);
    let mut bounds = Example::begin(rt, "bounds at the limit", 3);
    bounds.put(rt, 1, 0, 1_000_000_000);
    bounds.put(rt, 1, 2, -1_000_000_000);
    let bounds = &bounds.table;
    mark_after(rt, "quantity 3 hidden", 3, 0b100, bounds, bounds);
}

// 3: a word past the limit in either table.
fn past_limit(rt: &impl Print, bound: i64) {
    let table = [Sheet::NO_RULE; TABLE];
    let mut past = Example::begin(rt, "a bound past the limit", 3);
    past.put(rt, 2, 3, bound);
    mark_after(rt, "in the sheet", 3, 0, &past.table, &table);
    mark_after(rt, "in the script", 3, 0, &table, &past.table);
}

// 7: a script rule that names a hidden quantity, alone, second or first. The sheet's rules may, so one table serves as both.
fn hidden_named(rt: &impl Print) {
    let mut second = Example::begin(rt, "a sheet and script that name 2", 3);
    second.put(rt, 2, 0, 1);
    let table = &second.table;
    mark_after(rt, "2 hidden", 3, 0b10, table, table);
    mark_after(rt, "1 and 3 hidden", 3, 0b101, table, table);
    let mut both = Example::begin(rt, "a sheet and script that name 1 and 2", 3);
    both.put(rt, 1, -2, 0);
    let table = &both.table;
    mark_after(rt, "2 hidden", 3, 0b10, table, table);
    mark_after(rt, "1 hidden", 3, 0b1, table, table);
}

// Where several apply: 1 before 6 before 3.
fn limits_last(rt: &impl Print) {
    let table = [Sheet::NO_RULE; TABLE];
    let short = [Sheet::NO_RULE; TABLE - 1];
    let mut workspace = [0; WORKSPACE];
    let mut small = [0; WORKSPACE - 1];
    let mut values = [7; 3];
    let mut few = [7; 2];
    sheet::head(
        rt,
        "quantity 4 hidden, a script of 17 words, a workspace of 35, an assignment of 2",
    );
    mark(rt, 3, 0b1000, &table, &short, &mut small, &mut few);
    sheet::head(rt, "quantity 4 hidden and a workspace of 35 words");
    mark(rt, 3, 0b1000, &table, &table, &mut small, &mut values);
    sheet::head(rt, "quantity 4 hidden and an assignment of 2 words");
    mark(rt, 3, 0b1000, &table, &table, &mut workspace, &mut few);
}

// 3 before 7, in the script and in the sheet.
fn names_last(rt: &impl Print) {
    let table = [Sheet::NO_RULE; TABLE];
    let mut past = Example::begin(rt, "a bound past the limit that names 2", 3);
    past.put(rt, 2, 0, 2_000_000_001);
    mark_after(rt, "2 hidden", 3, 0b10, &table, &past.table);
    let mut script = Example::begin(rt, "in the sheet, and a script that names 2", 3);
    script.put(rt, 2, 0, 1);
    mark_after(rt, "2 hidden", 3, 0b10, &past.table, &script.table);
}

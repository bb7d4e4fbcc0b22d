// Document 02, request 1, on tables over 3 quantities: a script's bounds may be as large as a key's, by how many quantities the given set hides; a sheet's may not.
use crate::refusals;
use crate::sheet::Example;

// The chain of 1 to 2 to 3 at the sheet's limit, whose key is +1-3:2000000000 where 2 is hidden; then that bound, one more and one less, and their negations.
pub(crate) fn run(rt: &impl Print) {
    let mut paper = Example::begin(rt, "document 02, large scripts: a sheet", 3);
    paper.put(rt, 1, -2, 1_000_000_000);
    paper.put(rt, 2, -3, 1_000_000_000);
    for bound in [
        2_000_000_000,
        2_000_000_001,
        1_999_999_999,
        -2_000_000_000,
        -2_000_000_001,
    ] {
        bounded(rt, &paper, bound);
    }
}

// The script +1-3 with a bound: 2 hidden; then none hidden, where its limit is the sheet's; then 1 and 2, where a larger one serves but 1 may not be named.
fn bounded(rt: &impl Print, paper: &Example, bound: i64) {
    let mut script = Example::begin(rt, "a script", 3);
    script.put(rt, 1, -3, bound);
    let paper = &paper.table;
    let script = &script.table;
    refusals::mark_after(rt, "2 hidden", 3, 0b10, paper, script);
    refusals::mark_after(rt, "none hidden", 3, 0, paper, script);
    refusals::mark_after(rt, "1 and 2 hidden", 3, 0b11, paper, script);
    refusals::mark_after(
        rt,
        "that script as a sheet, 2 hidden",
        3,
        0b10,
        script,
        script,
    );
}

// The checks of marking two tables.
ghost use Rattle.std.specs.Prelude.{◌≡◌};
ghost use Rattle.places.specs.Numbering.{block_start};
ghost use Rattle.marking.specs.Marking.{numbers_within, mark_checks};

use rules::hidden::Set;
use rules::paper::Paper;
use rules::refusal::Refusal;
use rules::{hidden, paper};
use tables::reply::Reply;
use tables::{limit, names, table};

// Whether the hidden set names no quantity past `n`, and the first `m` words of both tables are in the limits of their papers.
fn numbers_within(n: usize, set: Set, sheet: &[i64], script: &[i64], m: usize) -> bool
    requires { m ≡ block_start n }
    ensures { result ≡ numbers_within n set sheet.now script.now }
{
    hidden::is_within(set, n)
        && limit::is_table_in(sheet, m, paper::bound_limit(Paper::Sheet, n, set))
        && limit::is_table_in(script, m, paper::bound_limit(Paper::Script, n, set))
}

// The first refusal of marking two tables with a workspace and an assignment of so many words, or done.
pub(crate) fn check(
    n: usize,
    set: Set,
    sheet: &[i64],
    script: &[i64],
    workspace: usize,
    values: usize,
) -> Reply
    ensures { result ≡ mark_checks n set sheet.now script.now workspace values }
{
    if !table::serves(n, sheet.len()) || !table::serves(n, script.len()) {
        return Err(Refusal::Size);
    }
    let m = table::size(n);
    if workspace < 2 * m {
        return Err(Refusal::TooShort { needed: 2 * m });
    }
    if values < n {
        return Err(Refusal::TooShort { needed: n });
    }
    if !numbers_within(n, set, sheet, script, m) {
        return Err(Refusal::OutOfLimit { line: 0 });
    }
    if names::any_names_hidden(n, set, script) {
        return Err(Refusal::Mismatch);
    }
    Ok(())
}

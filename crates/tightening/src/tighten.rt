// The tightest table of a table that some integers satisfy: every quantity is paired with all others that rules name, the live ones, and nothing is cleared; then each term of two literals
// gets the sum of their bounds alone.
ghost use Rattle.std.specs.Prelude.{◌≡◌, ◌*◌, ◌≤◌, length};
ghost use Rattle.keys.specs.Inner.{Fits, LiveAlone, RowServes};
ghost use Rattle.tightening.specs.Tightening.{strengthened};
ghost use Rattle.tightening.specs.Promises.{Tightened};
ghost use Rattle.tightening.specs.Inner.{RowsLent, AllPaired, Adding, LoneGatherable, LoneGathered};

use elimination::pair;
use keys::room;
use rules::sheet::Sheet;

// Pairs every quantity of the table, whose rules name live ones alone, and answers whether a contradiction is met, at which it stops. The step on a quantity that
// no rule names changes nothing, so only live ones are visited. The two rows are for the rules of the quantity at its turn: their words are free.
// Kept: the rows stay two parameters. `keys::room::Rows` has a list too, which is lent by the caller here, and a struct for these two calls alone would be no plainer.
fn pair_all(
    n: usize,
    table: &mut [i64],
    live: &[usize],
    plus: &mut [i64],
    minus: &mut [i64],
) -> bool
    requires { Fits n table.old × LiveAlone n live.now table.old × RowsLent n plus.old minus.old }
    ensures { AllPaired n table.old result table.new }
{
    for &j in live {
        if pair::pair(n, table, j, live, plus, minus) {
            return true;
        }
    }
    false
}

// Gathers the bound of each literal of a live quantity alone.
fn gather_lone(n: usize, table: &[i64], live: &[usize], row: &mut [i64])
    requires { LoneGatherable n live.now table.now row.old }
    ensures { LoneGathered n live.now table.now row.new }
{
    for &a in live {
        let start = 2 * (a * a);
        row[2 * a] = table[start];
        row[2 * a + 1] = table[start + 1];
    }
}

// Puts the sum of the bounds of each two literals alone in at their term; literals that are not live have none. With both rows the same, pairing does just that:
// a literal's own bound, added to itself and halved, stays. The row is for the bounds: its words are free.
fn strengthen(n: usize, table: &mut [i64], live: &[usize], row: &mut [i64])
    requires { Adding n table.old × LiveAlone n live.now table.old × (2 * n ≤ length row.old) }
    ensures { table.new ≡ strengthened n table.old }
{
    gather_lone(n, table, live, row);
    pair::pair_blocks(n, table, live, row, row, Sheet::NO_RULE, Sheet::NO_RULE);
}

// Does what `tighten` does, with rows of one size.
fn tighten_in<const ROW: usize>(n: usize, table: &mut [i64], live: &[usize]) -> bool
    requires { Fits n table.old × LiveAlone n live.now table.old × RowServes n ROW }
    ensures { Tightened n table.old result table.new }
{
    let mut plus = [0; ROW];
    let mut minus = [0; ROW];
    if pair_all(n, table, live, &mut plus, &mut minus) {
        return true;
    }
    strengthen(n, table, live, &mut plus);
    false
}

// Makes each word of the table, whose rules name live quantities alone, the least bound of its term, and answers whether no integers satisfy the table. The rows are of the
// first room that is long enough for `n`.
pub fn tighten(n: usize, table: &mut [i64], live: &[usize]) -> bool
    requires { Fits n table.old × LiveAlone n live.now table.old }
    ensures { Tightened n table.old result table.new }
{
    if n <= room::SMALL {
        tighten_in::<{ room::SMALL_ROW }>(n, table, live)
    } else if n <= room::MIDDLE {
        tighten_in::<{ room::MIDDLE_ROW }>(n, table, live)
    } else {
        tighten_in::<{ room::LARGE_ROW }>(n, table, live)
    }
}

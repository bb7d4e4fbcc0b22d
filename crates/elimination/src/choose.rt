// The choice of a value for one quantity, given those of others, the live ones: the integer nearest to 0, where the quantity's rules leave one.
ghost use Rattle.std.specs.Prelude.{◌≡◌, ◌*◌};
ghost use Rattle.words.specs.Change.{word_at};
ghost use Rattle.rules.specs.Meaning.{literal_value};
ghost use Rattle.tables.specs.Meaning.{assignment_of};
ghost use Rattle.elimination.specs.Choosing.{with_upper, bounded_by};
ghost use Rattle.elimination.specs.Promises.{Chosen};
ghost use Rattle.elimination.specs.Inner.{Addable, Choosable, among, Listed, Row, Valued, StepReady};

use crate::row;
use rules::sheet::Sheet;

// `v` lowered to what a bound leaves where the rest of its term has the value `a`.
#[tactic(auto, unfolding(crate::specs::Choosing::with_upper))]
fn with_upper(bound: i64, a: i64, v: i64) -> i64
    requires { Addable bound × Choosable a }
    ensures { result ≡ with_upper bound a v }
{
    if bound < Sheet::NO_RULE {
        integers::minimum(v, bound - a)
    } else {
        v
    }
}

// `v` lowered by each bound that a row has for a literal of a live quantity, and by the bound of the row's literal alone.
fn bounded_by(n: usize, row: &[i64], live: &[usize], values: &[i64], alone: i64, v: i64) -> i64
    requires { Listed n live.now × Row n live.now row.now × Valued n live.now values.now × Addable alone }
    ensures { result ≡ bounded_by (among live.now) (literal_value (assignment_of values.now)) (word_at row.now) alone (2 * n) v }
{
    let mut best = with_upper(alone, 0, v);
    for &a in live {
        let x = 2 * a;
        let value = values[a];
        best = with_upper(row[x], value, best);
        best = with_upper(row[x + 1], -value, best);
    }
    best
}

// The integer nearest to 0 that the rules of quantity `j + 1`, alone and with live ones, leave, where they leave one. The rows' words are free.
pub fn choose(
    n: usize,
    table: &[i64],
    values: &[i64],
    j: usize,
    live: &[usize],
    plus: &mut [i64],
    minus: &mut [i64],
) -> i64
    requires { StepReady n j live.now table.now plus.old minus.old × Valued n live.now values.now }
    ensures { Chosen (among live.now) n j table.now values.now result }
{
    row::gather(n, table, j, live, plus, minus);
    let start = 2 * (j * j);
    let above = bounded_by(n, plus, live, values, table[start], 0);
    let below = bounded_by(n, minus, live, values, table[start + 1], -above);
    -below
}

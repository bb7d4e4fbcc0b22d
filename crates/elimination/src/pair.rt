// Pairing: every rule with a quantity and + is added to every rule with it and -, and the sums go in by minimum. Which quantities take part is a set, listed in
// increasing number: the walk goes once over their blocks in place order and visits the words of live quantities alone. All sums that land in one block are put in before the next is begun
// (document 02, [4]). No word is written twice, and blocks to which no sum goes are passed over.
ghost use Rattle.std.specs.Prelude.{true, ◌≡◌, ◌+◌, ◌<◌, length, set, get_or};
ghost use Rattle.words.specs.Change.{word_at};
ghost use Rattle.elimination.specs.Hiding.{with_sum, with_half};
ghost use Rattle.elimination.specs.Promises.{BlockWorked, Paired};
ghost use Rattle.elimination.specs.Inner.{BothAddable, FourAddable, both_held, all_held, two_paired, row_paired, four_paired, among, StepReady, BlockReady, BlockPaired, BlocksReady, BlocksPaired, TwosReady, TwosPaired};

use crate::bounds::{Bounds, QuantityBounds};
use crate::{bare, row, word};

// Puts the sums in at the place `at` of two literals, given the bounds of each.
fn pair_two(table: &mut [i64], at: usize, x: Bounds, y: Bounds)
    requires { (at < length table.old) × BothAddable x × BothAddable y }
    ensures { table.new ≡ two_paired table.old at x y }
{
    let w = table[at];
    table[at] = word::with_sum(x.plus, y.minus, word::with_sum(x.minus, y.plus, w));
}

// The same where each of the bounds is a rule: nothing is tested.
fn add_two(table: &mut [i64], at: usize, x: Bounds, y: Bounds)
    requires addable { (at < length table.old) × BothAddable x × BothAddable y }
    requires held { (both_held x ≡ true) × (both_held y ≡ true) }
    ensures { table.new ≡ two_paired table.old at x y }
{
    let w = integers::minimum(table[at], x.minus + y.plus);
    table[at] = integers::minimum(w, x.plus + y.minus);
}

// Puts the sums in at the places of one literal of a quantity and both of another, `at` being the first. None goes there where no rule has the literal together with the quantity that is paired,
// as with most literals of a table with few rules.
fn pair_row(table: &mut [i64], at: usize, x: Bounds, y: QuantityBounds)
    requires { (at + 1 < length table.old) × BothAddable x × FourAddable y }
    ensures { table.new ≡ row_paired table.old at x y }
{
    if x.are_neither() {
        return;
    }
    pair_two(table, at, x, y.literal);
    pair_two(table, at + 1, x, y.negated);
}

// Puts the sums in at the four places of two quantities, `at` being the first, where each bound of the literals of both is a rule.
fn add_four(table: &mut [i64], at: usize, x: QuantityBounds, y: QuantityBounds)
    requires addable { (at + 3 < length table.old) × FourAddable x × FourAddable y }
    requires held { (all_held x ≡ true) × (all_held y ≡ true) }
    ensures { table.new ≡ four_paired table.old at x y }
{
    add_two(table, at, x.literal, y.literal);
    add_two(table, at + 1, x.literal, y.negated);
    add_two(table, at + 2, x.negated, y.literal);
    add_two(table, at + 3, x.negated, y.negated);
}

// Puts them in at these four places whatever the bounds are; `full` tells whether each bound of the second quantity is a rule. In a table with many rules most are, and then only the bounds of the
// first one are tested.
// Kept: the flag beside the bounds that it is of, since it would be worked out anew for each of the quantities before, in the innermost loop of all.
fn put_four(table: &mut [i64], at: usize, x: QuantityBounds, y: QuantityBounds, full: bool)
    requires addable { (at + 3 < length table.old) × FourAddable x × FourAddable y }
    requires full_value { full ≡ all_held y }
    ensures { table.new ≡ four_paired table.old at x y }
{
    if full && x.are_all() {
        add_four(table, at, x, y);
    } else {
        pair_row(table, at, x.literal, y);
        pair_row(table, at + 2, x.negated, y);
    }
}

// Puts the sums in at the terms of the live quantity of place `i` in the list with each lower one.
fn pair_twos(table: &mut [i64], i: usize, live: &[usize], plus: &[i64], minus: &[i64])
    requires { TwosReady i live.now table.old plus.now minus.now }
    ensures { TwosPaired (get_or live.now i 0) live.now plus.now minus.now table.old table.new }
{
    let b = live[i];
    let start = 2 * (b * b) + 2;
    let y = QuantityBounds::of(plus, minus, b);
    let full = y.are_all();
    for &a in &live[..i] {
        let x = QuantityBounds::of(plus, minus, a);
        put_four(table, start + 4 * a, x, y, full);
    }
}

// Puts the sums in at the place `at` of a literal alone. Here and below `alone` are the bounds of the quantity that is paired alone, with + and with -.
fn pair_one(table: &mut [i64], at: usize, x: Bounds, alone: Bounds)
    requires { (at < length table.old) × BothAddable x × BothAddable alone }
    ensures { table.new ≡ set table.old at (with_half x.plus x.minus (with_sum x.plus alone.minus (with_sum x.minus alone.plus (word_at table.old at)))) }
{
    let w = word::with_sum(x.minus, alone.plus, table[at]);
    table[at] = word::with_half(x.plus, x.minus, word::with_sum(x.plus, alone.minus, w));
}

// Puts the sums in at every place of live quantities in the block of the one of place `i` in the list.
fn pair_places(
    table: &mut [i64],
    i: usize,
    live: &[usize],
    plus: &[i64],
    minus: &[i64],
    alone: Bounds,
)
    requires { BlockReady i live.now table.old plus.now minus.now alone.plus alone.minus }
    ensures { BlockPaired (get_or live.now i 0) live.now plus.now minus.now alone.plus alone.minus table.old table.new }
{
    let b = live[i];
    let start = 2 * (b * b);
    let y = QuantityBounds::of(plus, minus, b);
    pair_one(table, start, y.literal, alone);
    pair_one(table, start + 1, y.negated, alone);
    pair_twos(table, i, live, plus, minus);
}

// The work on one block: puts in every sum that lands in the block of the live quantity of place `i` in the list, and changes no other word; `p` and `m` are the bounds of the quantity that is paired alone, with + and with -.
// No sum goes there where no rule has the block's quantity together with the one that is paired, as in most blocks of a table with few rules.
// Kept: `plus` and `minus`, `p` and `m` stay parameters of their own here and in `pair_blocks`, for these functions' clauses, `BlockReady`, `BlockWorked`, `BlocksReady` and `BlocksPaired`, may not change, and who calls them lends one row as both.
pub fn pair_block(
    table: &mut [i64],
    i: usize,
    live: &[usize],
    plus: &[i64],
    minus: &[i64],
    p: i64,
    m: i64,
)
    requires { BlockReady i live.now table.old plus.now minus.now p m }
    ensures { BlockWorked (get_or live.now i 0) live.now plus.now minus.now p m table.old table.new }
{
    if QuantityBounds::of(plus, minus, live[i]).are_none() {
        return;
    }
    pair_places(table, i, live, plus, minus, Bounds { plus: p, minus: m });
}

// Puts in, at the places of live quantities of `n`, every sum of the rows `plus` and `minus` and of the bounds `p` and `m`, one block after another.
pub fn pair_blocks(
    n: usize,
    table: &mut [i64],
    live: &[usize],
    plus: &[i64],
    minus: &[i64],
    p: i64,
    m: i64,
)
    requires { BlocksReady n live.now table.old plus.now minus.now p m }
    ensures { BlocksPaired n live.now plus.now minus.now p m table.old table.new }
{
    for i in 0..live.len() {
        pair_block(table, i, live, plus, minus, p, m);
    }
}

// Puts in every sum of a rule with +(j + 1) and a rule with -(j + 1) whose other quantities are live, and answers whether a bare sum is a contradiction. The two rows
// are for the quantity's rules: their words are free.
pub fn pair(
    n: usize,
    table: &mut [i64],
    j: usize,
    live: &[usize],
    plus: &mut [i64],
    minus: &mut [i64],
) -> bool
    requires { StepReady n j live.now table.old plus.old minus.old }
    ensures { Paired (among live.now) n j table.old result table.new }
{
    row::gather(n, table, j, live, plus, minus);
    let start = 2 * (j * j);
    let p = table[start];
    let m = table[start + 1];
    pair_blocks(n, table, live, plus, minus, p, m);
    word::is_bare_below(p, m) || bare::is_any_bare_below(n, live, plus, minus)
}

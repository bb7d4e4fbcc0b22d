// Where a table has a rule below another table's word, over the places of live quantities alone. With least bounds as these words it is the first rule by place that is broken.
ghost use Rattle.std.specs.Prelude.{get_or};
ghost use Rattle.tightening.specs.Below.{FirstBelow, LivePlace, BlockPlace, RunPlace, Comparable, BlockComparable, RunComparable};

use rules::sheet::Sheet;

// The first of `count` places from `at` on whose word is a rule, and smaller than that of `least`.
fn first_of(rules: &[i64], least: &[i64], at: usize, count: usize) -> Option<usize>
    requires { RunComparable at count rules.now least.now }
    ensures { FirstBelow (RunPlace at count) rules.now least.now result }
{
    for k in at..at + count {
        if rules[k] < Sheet::NO_RULE && rules[k] < least[k] {
            return Some(k);
        }
    }
    None
}

// The first such place in the block of the live quantity of place `i` in the list.
fn first_in_block(live: &[usize], i: usize, rules: &[i64], least: &[i64]) -> Option<usize>
    requires { BlockComparable i live.now rules.now least.now }
    ensures { FirstBelow (BlockPlace (get_or live.now i 0) live.now) rules.now least.now result }
{
    let b = live[i];
    let start = 2 * (b * b);
    if let Some(place) = first_of(rules, least, start, 2) {
        return Some(place);
    }
    for &a in &live[..i] {
        if let Some(place) = first_of(rules, least, start + 2 + 4 * a, 4) {
            return Some(place);
        }
    }
    None
}

// The first such place of live quantities of `n`.
pub fn first_below(n: usize, live: &[usize], rules: &[i64], least: &[i64]) -> Option<usize>
    requires { Comparable n live.now rules.now least.now }
    ensures { FirstBelow (LivePlace n live.now) rules.now least.now result }
{
    for i in 0..live.len() {
        if let Some(place) = first_in_block(live, i, rules, least) {
            return Some(place);
        }
    }
    None
}

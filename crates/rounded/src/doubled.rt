// The set hidden in one table whose bounds are doubled, marks being 1 more. It serves where no rule of two quantities is marked: a sum then has at most one marked rule, the half of two doubled bounds is their sum, odd exactly where
// halving loses a half, and so each sum of words is the word of the sum.
ghost use Rattle.std.specs.Prelude.{◌≡◌, ◌≤◌, length};
ghost use Rattle.places.specs.Numbering.{block_start};
ghost use Rattle.rules.specs.Hidden.{hidden_in};
ghost use Rattle.rules.specs.Limits.{max_quantities};
ghost use Rattle.rounded.specs.Inner.{halves_below, any_halves_below, MarkedFits, SomeVisible, PairsUnmarked, MarkedHidden};

use keys::live::Part;
use keys::{copies, turns};
use marks::doubled;
use rules::hidden;
use rules::hidden::Set;
use rules::sheet::Sheet;
use tables::table;

// Whether the halves of two words that are rules add to less than 0.
#[tactic(auto, using(crate::proofs::HalvesBelow::halves_fit), unfolding(crate::specs::Inner::halves_below))]
fn are_halves_below(p: i64, m: i64) -> bool
    ensures { result ≡ halves_below p m }
{
    p < Sheet::NO_RULE && m < Sheet::NO_RULE && integers::halved(p) + integers::halved(m) < 0
}

// Whether that is so of +q and -q for a quantity q of the set. While bounds are doubled a bare sum of two marked ones is 1 too large, so this is asked beside.
fn is_any_below(n: usize, set: Set, table: &[i64]) -> bool
    requires { (n ≤ max_quantities) × (block_start n ≤ length table.now) }
    ensures { result ≡ any_halves_below (hidden_in set) n table.now }
{
    for j in (0..n).rev() {
        let start = 2 * (j * j);
        if hidden::is_hidden(set, j + 1) && are_halves_below(table[start], table[start + 1]) {
            return true;
        }
    }
    false
}

// Hides the quantities of the set, and answers whether a contradiction is met; the marks become those of the key where none is.
pub(crate) fn hide(n: usize, set: Set, table: &mut [i64], marks: &mut [u8]) -> bool
    requires { MarkedFits n table.old marks.old × SomeVisible n set × PairsUnmarked n marks.old }
    ensures { MarkedHidden n set table.old marks.old result table.new marks.new }
{
    let m = table::size(n);
    doubled::double(table, marks, m);
    if turns::eliminate(n, set, Part::Inside, table) {
        return true;
    }
    if is_any_below(n, set, table) {
        return true;
    }
    copies::clear_set(n, set, table);
    doubled::split(table, marks, m);
    false
}

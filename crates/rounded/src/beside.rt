// The set hidden in two tables: the rules, and beside them the unmarked ones alone, their bounds doubled. There the half of an odd sum is more than the doubled half, so that a rule is unmarked exactly where its doubled bound stands
// beside it. It serves whatever is marked.
ghost use Rattle.std.specs.Prelude.{◌≡◌, ◌≤◌, ◌-◌, ◌^◌, pos, length};
ghost use Rattle.places.specs.Numbering.{block_start};
ghost use Rattle.tables.specs.Meaning.{WordsWithin};
ghost use Rattle.rounded.specs.Inner.{DoubleFits, beside_mark, Masked, ComparedBeside, MarkedFits, MarkedHidden};

use keys::live::Part;
use keys::{key, turns};
use rules::hidden;
use rules::hidden::Set;
use rules::sheet::Sheet;
use tables::table;

// Writes the unmarked rules of the first `m` words, their bounds doubled, over those of `copy`.
fn mask(m: usize, table: &[i64], marks: &[u8], copy: &mut [i64])
    requires { (m ≤ length table.now) × (m ≤ length marks.now) × (m ≤ length copy.old) × WordsWithin m (pos (2 ^ 61)) table.now }
    ensures { Masked m table.now marks.now copy.old copy.new }
{
    for i in 0..m {
        let w = table[i];
        copy[i] = if w < Sheet::NO_RULE && marks[i] != 1 {
            w + w
        } else {
            Sheet::NO_RULE
        };
    }
}

// Whether a rule is marked, given what stands beside it; no rule is not.
fn is_marked(w: i64, beside: i64) -> bool
    requires { DoubleFits w }
    ensures { result ≡ beside_mark w beside }
{
    w < Sheet::NO_RULE && beside != w + w
}

// Marks each of the first `m` rules whose doubled bound does not stand beside it.
fn compare(m: usize, table: &[i64], copy: &[i64], marks: &mut [u8])
    requires { (m ≤ length table.now) × (m ≤ length copy.now) × (m ≤ length marks.old) × WordsWithin m (pos (2 ^ 62 - 1)) table.now }
    ensures { ComparedBeside m table.now copy.now marks.old marks.new }
{
    for i in 0..m {
        marks[i] = u8::from(is_marked(table[i], copy[i]));
    }
}

// Hides the quantities of the set, and answers whether a contradiction is met; the marks become those of the key where none is. The words of `copy` are free. Where all are hidden no rule is left to mark.
pub(crate) fn hide(
    n: usize,
    set: Set,
    table: &mut [i64],
    marks: &mut [u8],
    copy: &mut [i64],
) -> bool
    requires { MarkedFits n table.old marks.old × (block_start n ≤ length copy.old) }
    ensures { MarkedHidden n set table.old marks.old result table.new marks.new }
{
    let m = table::size(n);
    mask(m, table, marks, copy);
    if key::hide_set(n, set, table) {
        return true;
    }
    if hidden::count(set, n) < n {
        turns::eliminate(n, set, Part::Inside, copy);
    }
    compare(m, table, copy, marks);
    false
}

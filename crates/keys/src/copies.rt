// The key, read off a table in which the hidden quantities are eliminated: the places of visible ones have it.
ghost use Rattle.std.specs.Prelude.{◌≡◌, ◌*◌, ◌≤◌, length};
ghost use Rattle.places.specs.Numbering.{block_start};
ghost use Rattle.rules.specs.Limits.{max_quantities};
ghost use Rattle.keys.specs.Copies.{set_cleared, KeyCopied};

use rules::hidden;
use rules::hidden::Set;
use tables::table;

// Clears the places of each quantity of the set.
pub fn clear_set(n: usize, set: Set, table: &mut [i64])
    requires { (n ≤ max_quantities) × (block_start n ≤ length table.old) }
    ensures { table.new ≡ set_cleared n set table.old }
{
    for j in 0..n {
        if hidden::is_hidden(set, j + 1) {
            // Never refused: the table has quantity `j + 1`.
            let _ = table::clear(n, table, j + 1);
        }
    }
}

// Writes the key over the second table of the words, from the first, in which the quantities of the set are eliminated.
#[tactic(auto, using(tables::proofs::Sizes::size_known))]
pub fn copy_key(n: usize, set: Set, words: &mut [i64])
    requires { (n ≤ max_quantities) × (2 * block_start n ≤ length words.old) }
    ensures { KeyCopied n set words.old words.new }
{
    let m = table::size(n);
    words.copy_within(..m, m);
    clear_set(n, set, &mut words[m..]);
}

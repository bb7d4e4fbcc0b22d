// The test of a table's words against a limit.
ghost use Rattle.std.specs.Prelude.{◌≡◌};
ghost use Rattle.tables.specs.Promises.{InLimit};
ghost use Rattle.tables.specs.Tables.{in_limit};

use rules::sheet::Sheet;

// Whether a word is no rule, or a bound of at most `limit` in magnitude.
#[tactic(auto, using(crate::proofs::Limits::above_opposite), unfolding(crate::specs::Tables::in_limit))]
pub fn is_word_in(w: i64, limit: i64) -> bool
    ensures { result ≡ in_limit limit w }
{
    w >= Sheet::NO_RULE || (integers::opposite(limit) < w && w <= limit)
}

// Whether each of the first `m` words, or of all where there are fewer, is in the limit.
pub fn is_table_in(table: &[i64], m: usize, limit: i64) -> bool
    ensures { InLimit m limit table.now result }
{
    for &w in &table[..m.min(table.len())] {
        if !is_word_in(w, limit) {
            return false;
        }
    }
    true
}

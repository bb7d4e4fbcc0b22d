// The papers of an exam and the limit of their bounds.
ghost use Rattle.std.specs.Prelude.{◌≡◌, pos};
ghost use Rattle.rules.specs.Limits.{bound_limit};

use crate::hidden;
use crate::hidden::Set;
use crate::sheet::Sheet;

// What a text or a table is taken as.
#[derive(Clone, Copy, PartialEq, Eq, Debug)]
pub enum Paper {
    Sheet,
    Script,
}

// The largest magnitude of a bound on a paper over `n` quantities with a hidden set in its header: for a script the sheet's, doubled for each hidden quantity.
#[tactic(auto, using(crate::proofs::Counts::count_word), unfolding(crate::specs::Limits::bound_limit))]
pub fn bound_limit(paper: Paper, n: usize, hidden: Set) -> i64
    ensures { result ≡ pos (bound_limit paper n hidden) }
{
    match paper {
        Paper::Sheet => Sheet::MAX_BOUND,
        Paper::Script => Sheet::MAX_BOUND << hidden::count(hidden, n),
    }
}

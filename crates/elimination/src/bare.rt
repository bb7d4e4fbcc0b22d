// The bare sums of a step.
ghost use Rattle.std.specs.Prelude.{◌≡◌, ◌||◌, ◌*◌};
ghost use Rattle.words.specs.Change.{word_at};
ghost use Rattle.elimination.specs.Hiding.{bare_below, any_bare};
ghost use Rattle.elimination.specs.Inner.{FourAddable, among, Listed, Row};

use crate::bounds::QuantityBounds;
use crate::word;

// Whether the bare sum of a literal of a quantity and its negation is a contradiction.
fn is_bare_below(x: QuantityBounds) -> bool
    requires { FourAddable x }
    ensures { result ≡ (bare_below x.literal.plus x.negated.minus || bare_below x.negated.plus x.literal.minus) }
{
    word::is_bare_below(x.literal.plus, x.negated.minus)
        || word::is_bare_below(x.negated.plus, x.literal.minus)
}

// Whether one is, of those of the live quantities of `n`.
pub(crate) fn is_any_bare_below(n: usize, live: &[usize], plus: &[i64], minus: &[i64]) -> bool
    requires { Listed n live.now × Row n live.now plus.now × Row n live.now minus.now }
    ensures { result ≡ any_bare (among live.now) (word_at plus.now) (word_at minus.now) (2 * n) }
{
    live.iter()
        .any(|&a| is_bare_below(QuantityBounds::of(plus, minus, a)))
}

// The operations on the words of a step: a sum put in by minimum, the same halved, and the test of a bare sum.
ghost use Rattle.std.specs.Prelude.{◌≡◌};
ghost use Rattle.elimination.specs.Hiding.{with_sum, with_half, bare_below};
ghost use Rattle.elimination.specs.Inner.{Addable, sum_of};

use rules::sheet::Sheet;

// The sum of two bounds, where both are rules.
fn sum_of(a: i64, b: i64) -> Option<i64>
    requires { Addable a × Addable b }
    ensures { result ≡ sum_of a b }
{
    if a < Sheet::NO_RULE && b < Sheet::NO_RULE {
        Some(a + b)
    } else {
        None
    }
}

// `w` with the sum of two bounds put in by minimum; `w` where either is no rule.
pub(crate) fn with_sum(a: i64, b: i64, w: i64) -> i64
    requires { Addable a × Addable b }
    ensures { result ≡ with_sum a b w }
{
    sum_of(a, b).map_or(w, |sum| integers::minimum(w, sum))
}

// `w` with the sum of two bounds, halved, put in by minimum; `w` where either is no rule.
pub(crate) fn with_half(a: i64, b: i64, w: i64) -> i64
    requires { Addable a × Addable b }
    ensures { result ≡ with_half a b w }
{
    sum_of(a, b).map_or(w, |sum| integers::minimum(w, integers::halved(sum)))
}

// Whether the bare sum of two bounds is a contradiction.
#[tactic(auto, unfolding(crate::specs::Hiding::bare_below))]
pub(crate) fn is_bare_below(a: i64, b: i64) -> bool
    requires { Addable a × Addable b }
    ensures { result ≡ bare_below a b }
{
    sum_of(a, b).is_some_and(|sum| sum < 0)
}

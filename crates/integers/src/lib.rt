// The operations on a bound that is a signed 64-bit word. Each answers for every word or pair of words.
#![tactic(auto)]

ghost use Rattle.std.specs.Prelude.{◌≡◌, nat_abs, ◌+ℤ◌};
ghost use Rattle.integers.specs.Bound.{half, opposite_bound, smaller, saturated, total_of, Halves};

// `c` halved and rounded toward minus infinity.
#[tactic(auto, using(crate::proofs::Halving::shifted))]
pub fn halved(c: i64) -> i64
    ensures { result ≡ half c }
{
    c >> 1
}

// A number halved: the half, rounded toward minus infinity, and whether the number was odd, so that rounding lost a half.
// Kept: the flag is no plainer as an `Option` or a `Result`: both parts always mean something, and callers take either.
#[derive(Clone, Copy, PartialEq, Eq, Debug)]
pub struct Half {
    pub half: i64,
    pub odd: bool,
}

// `c` halved, and whether it was odd.
#[tactic(auto, using(crate::proofs::Halving::halving))]
pub fn halve(c: i64) -> Half
    ensures { Halves c result.half result.odd }
{
    let half = halved(c);
    Half {
        half,
        odd: half + half < c,
    }
}

// The bound of the opposite rule, `-c - 1`, which fits for every word.
#[tactic(auto, unfolding(crate::specs::Bound::opposite_bound))]
pub fn opposite(c: i64) -> i64
    ensures { result ≡ opposite_bound c }
{
    -1 - c
}

// Kept: this and the next three, each one call of the library now: what may not change, the functions are public and their clauses by the definitions that all crates use.
// The smaller of two words.
#[tactic(auto, unfolding(crate::specs::Bound::smaller))]
pub fn minimum(a: i64, b: i64) -> i64
    ensures { result ≡ smaller a b }
{
    a.min(b)
}

// The sum of `a` and `b` where it fits a word.
#[tactic(auto, using(crate::proofs::Parts::word_total))]
pub fn add(a: i64, b: i64) -> Option<i64>
    ensures { result ≡ total_of a b }
{
    a.checked_add(b)
}

// The sum of `a` and `b`, or the end of the range of words that it lies beyond.
#[tactic(auto, using(crate::proofs::Parts::nearest_word))]
pub fn saturating_add(a: i64, b: i64) -> i64
    ensures { result ≡ saturated (a +ℤ b) }
{
    a.saturating_add(b)
}

// The sum of `a` and `b` halved and rounded toward minus infinity, which is a word also where the sum is none.
pub fn midpoint(a: i64, b: i64) -> i64
    ensures { result ≡ half (a +ℤ b) }
{
    let x = halve(a);
    let y = halve(b);
    if x.odd && y.odd {
        return x.half + y.half + 1;
    }
    x.half + y.half
}

// The magnitude of a word, which for the least one is 2 ^ 63.
pub fn magnitude(c: i64) -> u64
    ensures { result ≡ nat_abs c }
{
    c.unsigned_abs()
}

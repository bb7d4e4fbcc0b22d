// The hidden set, a number with bit q - 1 for quantity q, decoded here alone.
ghost use Rattle.std.specs.Prelude.{◌≡◌, ◌≤◌};
ghost use Rattle.rules.specs.Hidden.{hidden_in, member_count, bit_of};
ghost use Rattle.rules.specs.Limits.{max_quantities};
ghost use Rattle.rules.specs.Promises.{InRange};

// A set of quantities.
// Kept: the C interface: a set is lent and returned as this number, and the theorems on hidden sets speak of its bits.
pub type Set = u32;

// The bits of a set's type.
const BITS: usize = 32;

// Whether the set has quantity `q`; 0 and numbers past the set's bits are in none.
pub fn is_hidden(set: Set, q: usize) -> bool
    ensures { result ≡ hidden_in set q }
{
    1 <= q && q <= BITS && (set >> (q - 1)) % 2 == 1
}

// The set of quantity `q` alone.
pub fn bit(q: usize) -> Set
    requires { (1 ≤ q) × (q ≤ max_quantities) }
    ensures { result ≡ bit_of q }
{
    1 << (q - 1)
}

// Whether the set has no quantity past `n`; where `n` is at least the number of bits every set is so.
pub fn is_within(set: Set, n: usize) -> bool
    ensures { InRange n set result }
{
    BITS <= n || set >> n == 0
}

// How many of the quantities 1 to `n` the set has.
#[tactic(auto, using(crate::proofs::Counts::counting))]
pub fn count(set: Set, n: usize) -> usize
    ensures { result ≡ member_count (hidden_in set) n }
{
    let mut members = 0;
    for i in 0..n.min(BITS) {
        if is_hidden(set, i + 1) {
            members += 1;
        }
    }
    members
}

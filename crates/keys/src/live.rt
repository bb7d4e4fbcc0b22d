// The quantities of a sheet parted by a set, and those of them that are live at a turn: listed in increasing number, each by its number less one.
ghost use Rattle.std.specs.Prelude.{◌≡◌, suc, ◌≤◌, ◌<◌, length};
ghost use Rattle.rules.specs.Limits.{max_quantities};
ghost use Rattle.keys.specs.Inner.{member_of, still_live, NoneBefore, LiveListed};

use rules::hidden;
use rules::hidden::Set;

// A part of the quantities, given by a set.
#[derive(Clone, Copy, PartialEq, Eq, Debug)]
pub enum Part {
    // those in the set
    Inside,
    // those outside it
    Outside,
}

// Whether quantity `j + 1` is of the part.
pub(crate) fn is_member(set: Set, part: Part, j: usize) -> bool
    requires { j < max_quantities }
    ensures { result ≡ member_of set part (suc j) }
{
    match part {
        Part::Inside => hidden::is_hidden(set, j + 1),
        Part::Outside => !hidden::is_hidden(set, j + 1),
    }
}

// Whether quantity `i + 1` is live when those of the part among the first `from` quantities have had their turn: of those in the set the later ones, and none where the part is outside it; of
// those outside it all, and only the later ones where they are the part.
fn is_live(set: Set, part: Part, from: usize, i: usize) -> bool
    requires { i < max_quantities }
    ensures { result ≡ still_live set part from i }
{
    match part {
        Part::Inside => from <= i || !hidden::is_hidden(set, i + 1),
        Part::Outside => from <= i && !hidden::is_hidden(set, i + 1),
    }
}

// A quantity before which none is live, by its number less one.
fn first(part: Part, from: usize) -> usize
    ensures { NoneBefore part from result }
{
    match part {
        Part::Inside => 0,
        Part::Outside => from,
    }
}

// Lists the live quantities of `n`, and answers how many they are. The other words of `out` are free.
// Kept: a lent slice and a count, since there is no heap (fixed memory) for a `Vec`. The set and its part stay two, here and in turns.rt: the clauses of `list`, `turns::eliminate` and
// `turns::read_back` name them apart.
pub fn list(n: usize, set: Set, part: Part, from: usize, out: &mut [usize]) -> usize
    requires { (n ≤ max_quantities) × (n ≤ length out.old) × (from ≤ n) }
    ensures { LiveListed n set part from result out.new }
{
    let mut count = 0;
    for i in first(part, from)..n {
        if is_live(set, part, from, i) {
            out[count] = i;
            count += 1;
        }
    }
    count
}

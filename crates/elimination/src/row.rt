// The rules of one quantity, gathered by literal: a step reads each of them many times, and in the table most of them stand far apart.
ghost use Rattle.elimination.specs.Inner.{StepReady, PairGatherable, PairGathered, Gathered};

use rules::sheet::Sheet;

// Gathers the bounds of quantity `j + 1` with quantity `a + 1`, whose terms stand side by side in the block of the higher one; a quantity has none with itself.
#[tactic(auto, unfolding(places::specs::Numbering::block_start))]
fn gather_pair(table: &[i64], j: usize, a: usize, plus: &mut [i64], minus: &mut [i64])
    requires { PairGatherable j a table.now plus.old minus.old }
    ensures { PairGathered j a table.now plus.old minus.old plus.new minus.new }
{
    let x = 2 * a;
    if a < j {
        let at = 2 * (j * j) + 2 + 4 * a;
        plus[x] = table[at];
        plus[x + 1] = table[at + 2];
        minus[x] = table[at + 1];
        minus[x + 1] = table[at + 3];
    } else if j < a {
        let at = 2 * (a * a) + 2 + 4 * j;
        plus[x] = table[at];
        plus[x + 1] = table[at + 1];
        minus[x] = table[at + 2];
        minus[x + 1] = table[at + 3];
    } else {
        plus[x] = Sheet::NO_RULE;
        plus[x + 1] = Sheet::NO_RULE;
        minus[x] = Sheet::NO_RULE;
        minus[x + 1] = Sheet::NO_RULE;
    }
}

// Gathers the bounds of quantity `j + 1` with each live quantity. The other words of the rows are free.
pub(crate) fn gather(
    n: usize,
    table: &[i64],
    j: usize,
    live: &[usize],
    plus: &mut [i64],
    minus: &mut [i64],
)
    requires { StepReady n j live.now table.now plus.old minus.old }
    ensures { Gathered n j live.now table.now plus.new minus.new }
{
    for &a in live {
        gather_pair(table, j, a, plus, minus);
    }
}

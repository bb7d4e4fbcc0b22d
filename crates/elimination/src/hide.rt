// Hiding one quantity: the pairing of its rules, one block after another, then the clearing of its places.
ghost use Rattle.elimination.specs.Promises.{QuantityHidden};
ghost use Rattle.elimination.specs.Inner.{StepReady, NamesAlone};

use crate::pair;

// Hides quantity `j + 1` in a table whose rules name it and live quantities alone, and answers whether a bare sum is a contradiction. The rows' words are free.
pub fn hide(
    n: usize,
    table: &mut [i64],
    j: usize,
    live: &[usize],
    plus: &mut [i64],
    minus: &mut [i64],
) -> bool
    requires step_ready { StepReady n j live.now table.old plus.old minus.old }
    requires names_alone { NamesAlone n j live.now table.old }
    ensures { QuantityHidden n j table.old result table.new }
{
    let contradiction = pair::pair(n, table, j, live, plus, minus);
    // the table serves `n` quantities, so nothing is refused
    let _ = tables::table::clear(n, table, j + 1);
    contradiction
}

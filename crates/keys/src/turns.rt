// The quantities of a part eliminated in one table, in increasing number, with nothing cleared; and their values, read back in the opposite order. A quantity whose turn is over takes no
// part any more, so its places stay as they were at its turn.
ghost use Rattle.std.specs.Prelude.{◌≡◌};
ghost use Rattle.elimination.specs.Inner.{Ready};
ghost use Rattle.keys.specs.Inner.{member_of, PartFits, SetEliminated, PartReadable, PartRead, read_back, read_one, RowsServe, TurnTaken, ChoiceReady};

use crate::live::Part;
use crate::room::Rows;
use crate::{live, room};
use elimination::{choose, pair};
use rules::hidden::Set;

// Pairs quantity `j + 1` with the live ones where it is of the part, and answers whether a contradiction is met.
fn take_turn<const LIST: usize, const ROW: usize>(
    n: usize,
    set: Set,
    part: Part,
    table: &mut [i64],
    j: usize,
    rows: &mut Rows<LIST, ROW>,
) -> bool
    requires { Ready n j table.old × RowsServe n LIST ROW }
    ensures { TurnTaken n set part j table.old result table.new }
{
    if !live::is_member(set, part, j) {
        return false;
    }
    let Rows { list, plus, minus } = rows;
    let count = live::list(n, set, part, j + 1, list);
    pair::pair(n, table, j, &list[..count], plus, minus)
}

// Does what `eliminate` does, with rows of one size.
fn take_turns<const LIST: usize, const ROW: usize>(
    n: usize,
    set: Set,
    part: Part,
    table: &mut [i64],
) -> bool
    requires { PartFits n set part table.old × RowsServe n LIST ROW }
    ensures { SetEliminated (member_of set part) n table.old result table.new }
{
    let mut rows = Rows::<LIST, ROW>::new();
    for j in 0..n {
        if take_turn(n, set, part, table, j, &mut rows) {
            return true;
        }
    }
    false
}

// Pairs each quantity of the part in increasing number with all but those of it before, and answers whether a contradiction is met, at which it stops: then no integers satisfy the table. Where the part is outside the set,
// those in it take no part: no rule names them.
pub fn eliminate(n: usize, set: Set, part: Part, table: &mut [i64]) -> bool
    requires { PartFits n set part table.old }
    ensures { SetEliminated (member_of set part) n table.old result table.new }
{
    if n <= room::SMALL {
        take_turns::<{ room::SMALL }, { room::SMALL_ROW }>(n, set, part, table)
    } else if n <= room::MIDDLE {
        take_turns::<{ room::MIDDLE }, { room::MIDDLE_ROW }>(n, set, part, table)
    } else {
        take_turns::<{ room::LARGE }, { room::LARGE_ROW }>(n, set, part, table)
    }
}

// Chooses a value for quantity `j + 1` where it is of the part, from its rules as at its turn, given the values of the live ones.
fn choose_value<const LIST: usize, const ROW: usize>(
    n: usize,
    set: Set,
    part: Part,
    table: &[i64],
    values: &mut [i64],
    j: usize,
    rows: &mut Rows<LIST, ROW>,
)
    requires { Ready n j table.now × RowsServe n LIST ROW × ChoiceReady n set part j values.old }
    ensures { values.new ≡ read_one set part n table.now j values.old }
{
    if live::is_member(set, part, j) {
        let Rows { list, plus, minus } = rows;
        let count = live::list(n, set, part, j + 1, list);
        values[j] = choose::choose(n, table, values, j, &list[..count], plus, minus);
    }
}

// Does what `read_back` does, with rows of one size.
fn choose_values<const LIST: usize, const ROW: usize>(
    n: usize,
    set: Set,
    part: Part,
    table: &[i64],
    values: &mut [i64],
)
    requires { PartReadable n set part table.now values.old × RowsServe n LIST ROW }
    ensures { values.new ≡ read_back set part n table.now n values.old }
{
    let mut rows = Rows::<LIST, ROW>::new();
    for j in (0..n).rev() {
        choose_value(n, set, part, table, values, j, &mut rows);
    }
}

// Chooses a value for each quantity of the part, the last first, given the values of the others.
pub fn read_back(n: usize, set: Set, part: Part, table: &[i64], values: &mut [i64])
    requires { PartReadable n set part table.now values.old }
    ensures { PartRead n set part table.now values.old values.new }
{
    if n <= room::SMALL {
        choose_values::<{ room::SMALL }, { room::SMALL_ROW }>(n, set, part, table, values);
    } else if n <= room::MIDDLE {
        choose_values::<{ room::MIDDLE }, { room::MIDDLE_ROW }>(n, set, part, table, values);
    } else {
        choose_values::<{ room::LARGE }, { room::LARGE_ROW }>(n, set, part, table, values);
    }
}

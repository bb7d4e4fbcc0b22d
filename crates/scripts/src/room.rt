// What is lent for marking two texts, and whether it is enough.
ghost use Rattle.std.specs.Prelude.{◌≡◌, ◌≤◌, Ok};
ghost use Rattle.rules.specs.Limits.{max_quantities};
ghost use Rattle.scripts.specs.Meaning.{own_lengths};
ghost use Rattle.scripts.specs.Marking.{room_checks};

use rules::refusal::Refusal;
use tables::reply::Reply;
use tables::table;

// How many words are lent as the sheet's table, the script's, the workspace and the assignment.
#[derive(Clone, Copy, PartialEq, Eq, Debug)]
pub struct Lengths {
    pub sheet: usize,
    pub script: usize,
    pub workspace: usize,
    pub values: usize,
}

// The largest room, which is long enough for every sheet, with so many words for the assignment.
pub(crate) fn own_lengths(values: usize) -> Lengths
    ensures { result ≡ own_lengths values }
{
    Lengths {
        sheet: table::LARGEST,
        script: table::LARGEST,
        workspace: 2 * table::LARGEST,
        values,
    }
}

// The first refusal of what is lent for `n` quantities, or done: the sheet's table, then the script's, the workspace, the assignment.
#[tactic(auto, using(tables::proofs::Sizes::size_known, tables::proofs::Sizes::small_start, crate::proofs::Rooms::tables_short, crate::proofs::Rooms::workspace_short, crate::proofs::Rooms::values_short, crate::proofs::Rooms::room_roomy))]
pub(crate) fn check_room(n: usize, lent: Lengths) -> Reply
    requires { (1 ≤ n) × (n ≤ max_quantities) }
    ensures { result ≡ room_checks n lent (Ok tt) }
{
    let m = table::size(n);
    if lent.sheet < m || lent.script < m {
        return Err(Refusal::TooShort { needed: m });
    }
    if lent.workspace < 2 * m {
        return Err(Refusal::TooShort { needed: 2 * m });
    }
    if lent.values < n {
        return Err(Refusal::TooShort { needed: n });
    }
    Ok(())
}

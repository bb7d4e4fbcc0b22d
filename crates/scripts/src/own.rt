// Marking two texts in tables and a workspace of its own, in the first of three sizes that is long enough for the n of the sheet's first line, since all of them are cleared.
ghost use Rattle.std.specs.Prelude.{◌≤◌};
ghost use Rattle.scripts.specs.Marking.{count_in};
ghost use Rattle.scripts.specs.Promises.{MarkedInOwnRoom};

use crate::reply::TextMarking;
use crate::stack;
use keys::room;
use lines::count;
use rules::sheet::Sheet;
use tables::table;

// The words of each room's workspace, those of two tables.
const SMALL_WORKSPACE: usize = 2 * room::SMALL_TABLE;

const MIDDLE_WORKSPACE: usize = 2 * room::MIDDLE_TABLE;

const LARGE_WORKSPACE: usize = 2 * table::LARGEST;

// A number that a sheet's n is not above, from its first line alone: n where that line is fine, and else 0, since the text is refused.
// Kept: 0 and no Option where the text is refused: who asks takes the smallest room then, with no case of its own.
fn count_at_most(sheet: &[u8]) -> usize
    ensures { count_in sheet.now ≤ result }
{
    count::count_line(sheet, 0, b"quantities=", 1, Sheet::MAX_QUANTITIES, 1).map_or(
        0,
        |first| first.value,
    )
}

// Marks the script's text against the sheet's; the caller lends the assignment alone. Each rule line is read once, in the first room that is long enough for
// the sheet's n, and texts are refused as if the largest were lent.
pub fn mark_in_own_room(sheet: &[u8], script: &[u8], values: &mut [i64]) -> TextMarking
    ensures { MarkedInOwnRoom sheet.now script.now values.old result values.new }
{
    let n = count_at_most(sheet);
    if n <= room::SMALL {
        stack::mark_in_room::<{ room::SMALL_TABLE }, SMALL_WORKSPACE>(sheet, script, values)
    } else if n <= room::MIDDLE {
        stack::mark_in_room::<{ room::MIDDLE_TABLE }, MIDDLE_WORKSPACE>(sheet, script, values)
    } else {
        stack::mark_in_room::<{ table::LARGEST }, LARGE_WORKSPACE>(sheet, script, values)
    }
}

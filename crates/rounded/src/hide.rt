// The set hidden with marks: in one table where no rule of two quantities is marked, as after reading; else in two.
ghost use Rattle.std.specs.Prelude.{◌≤◌, length};
ghost use Rattle.places.specs.Numbering.{block_start};
ghost use Rattle.rounded.specs.Inner.{MarkedFits, MarkedHidden};

use crate::{beside, doubled, pairs};
use rules::hidden;
use rules::hidden::Set;

// Hides the quantities of the set, and answers whether a contradiction is met; the marks become those of the key where none is. The words of `copy` are free.
pub(crate) fn hide_set(
    n: usize,
    set: Set,
    table: &mut [i64],
    marks: &mut [u8],
    copy: &mut [i64],
) -> bool
    requires { MarkedFits n table.old marks.old × (block_start n ≤ length copy.old) }
    ensures { MarkedHidden n set table.old marks.old result table.new marks.new }
{
    if hidden::count(set, n) < n && !pairs::is_any_marked(n, marks) {
        return doubled::hide(n, set, table, marks);
    }
    beside::hide(n, set, table, marks, copy)
}

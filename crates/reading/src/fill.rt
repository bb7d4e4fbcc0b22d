// A table filled from a text that passed its check.
ghost use Rattle.std.specs.Prelude.{◌≡◌, ◌≤◌, length};
ghost use Rattle.places.specs.Numbering.{block_start};
ghost use Rattle.reading.specs.Reading.{check_text, filled};
ghost use Rattle.reading.specs.Meaning.{Passes};

use crate::check;
use crate::check::Passed;
use rules::paper;
use rules::paper::Paper;

// Fills the first 2n² words of the table with the rules of a text that passed. They are read as in the check, and none is refused.
pub fn fill(s: &[u8], paper: Paper, passed: Passed, table: &mut [i64])
    requires { Passes paper s.now passed.quantities passed.hidden passed.rules passed.body × (block_start passed.quantities ≤ length table.old) }
    ensures { table.new ≡ filled (check_text paper s.now) table.old }
{
    let limit = paper::bound_limit(paper, passed.quantities, passed.hidden) as u64;
    let _ = check::check_rules(s, false, passed, limit, table);
}

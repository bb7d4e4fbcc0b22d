// A sheet's text read into a lent table.
ghost use Rattle.reading.specs.Promises.{Vouched, CheckedRead, ReadInto};

use crate::check::Checked;
use crate::{check, fill};
use rules::paper::Paper;
use rules::refusal::Refusal;
use rules::sheet::Sheet;
use tables::table;

// n and the hidden set, or the refusal
pub type Reading = Result<Sheet, Refusal>;

// Reads a sheet's text whose check has answered `checked`: a refusal is handed back, a table that is too short is refused, and else its first 2n² words are filled.
pub fn read_checked(s: &[u8], checked: Checked, table: &mut [i64]) -> Reading
    requires { Vouched s.now checked }
    ensures { CheckedRead s.now checked table.old result table.new }
{
    let passed = checked?;
    let needed = table::size(passed.quantities);
    if table.len() < needed {
        return Err(Refusal::TooShort { needed });
    }
    fill::fill(s, Paper::Sheet, passed, table);
    Ok(Sheet {
        quantities: passed.quantities,
        hidden: passed.hidden,
    })
}

// Reads a sheet's text into the first 2n² words of a table: the text is checked first, and last that the table is long enough.
pub fn read(s: &[u8], table: &mut [i64]) -> Reading
    ensures { ReadInto s.now table.old result table.new }
{
    let checked = check::check(s, Paper::Sheet);
    read_checked(s, checked, table)
}

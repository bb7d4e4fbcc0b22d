// A bank sheet's text read into a lent table.
ghost use Rattle.bank.specs.Promises.{BankRead};

use crate::check;
use reading::read;
use reading::read::Reading;

// Reads a bank sheet's text into the first 2n² words of a table: the text is checked first, with the order of its rules, and last that the table is long enough.
pub fn read(s: &[u8], table: &mut [i64]) -> Reading
    ensures { BankRead s.now table.old result table.new }
{
    read::read_checked(s, check::check(s), table)
}

// What the program *key* prints for a text.
ghost use Rattle.std.specs.Prelude.{true, ◌≡◌, ◌≤◌, length};
ghost use Rattle.rules.specs.Hidden.{set_within};
ghost use Rattle.tables.specs.Tables.{serves};
ghost use Rattle.numerals.specs.Writing.{Spliced};
ghost use Rattle.writing.specs.Writing.{written_text};
ghost use Rattle.writing.specs.Promises.{max_written};
ghost use Rattle.reports.specs.Reports.{table_report};
ghost use Rattle.reports.specs.Promises.{KeyPrinted};
ghost use Rattle.reports.specs.Inner.{SheetTable};

use crate::{refusal, room};
use reading::read;
use rules::hidden::Set;
use rules::sheet::Sheet;
use tables::table;
use tightening::key;
use writing::write;

// Bytes enough for whatever is printed.
pub const ROOM: usize = room::HEADER + room::RULE_LINE * Sheet::MAX_RULES;

// Writes the text of a table, for which there is room, at the start of the output; answers its length. The writer has nothing to refuse.
fn print_text(n: usize, hidden: Set, table: &[i64], out: &mut [u8]) -> usize
    requires table_value { (serves n (length table.now) ≡ true) × (set_within n hidden ≡ true) }
    requires table_in_bounds { length (written_text n hidden table.now) ≤ length out.old }
    ensures { Spliced out.old 0 (written_text n hidden table.now) result out.new }
{
    write::write(n, hidden, table, out).unwrap_or(0)
}

// Writes the tightest key of a sheet's table as its text, or the refusal of its call, at the start of the output; answers the length.
fn print_table(n: usize, hidden: Set, table: &mut [i64], out: &mut [u8]) -> usize
    requires { SheetTable n hidden table.old × (max_written ≤ length out.old) }
    ensures { Spliced out.old 0 (table_report n hidden table.old) result out.new }
{
    let mut words = [0; table::LARGEST];
    let workspace: &mut [i64] = &mut words;
    match key::tight_key(n, hidden, table, workspace) {
        Ok(()) => print_text(n, hidden, table, out),
        Err(reason) => refusal::put_refusal(out, reason),
    }
}

// Writes what *key* prints for the text at the start of the output; answers its length.
pub fn print_key(text: &[u8], out: &mut [u8; ROOM]) -> usize
    ensures { KeyPrinted text.now out.old result out.new }
{
    let mut words = [0; table::LARGEST];
    let table: &mut [i64] = &mut words;
    match read::read(text, table) {
        Ok(Sheet { quantities, hidden }) => {
            let m = table::size(quantities);
            print_table(quantities, hidden, &mut table[..m], out)
        }
        Err(refusal) => refusal::put_refusal(out, refusal),
    }
}

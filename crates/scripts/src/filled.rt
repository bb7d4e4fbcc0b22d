// Two tables marked that are filled from texts with one header: what is left to check is that the script names no hidden quantity.
ghost use Rattle.std.specs.Prelude.{length, take};
ghost use Rattle.places.specs.Numbering.{block_start};
ghost use Rattle.scripts.specs.Inner.{TablesFilled, FilledMarked};

use crate::reply::{Marked, PaperRefusal, Subject, TextMarking};
use marking::mark;
use rules::hidden::Set;
use rules::refusal::Refusal;
use tables::{names, table};

// Marks the tables at the front of two lists of words: a script that names a hidden quantity is refused, and any other gets its verdict.
pub(crate) fn mark_filled(
    n: usize,
    hidden: Set,
    sheet_table: &[i64],
    script_table: &[i64],
    workspace: &mut [i64],
    values: &mut [i64],
) -> TextMarking
    requires { TablesFilled n hidden (take (block_start n) sheet_table.now) (take (block_start n) script_table.now)
        (length workspace.old) (length values.old) }
    ensures { FilledMarked n hidden (take (block_start n) sheet_table.now) (take (block_start n) script_table.now)
        workspace.old values.old result workspace.new values.new }
{
    let m = table::size(n);
    let sheet_table = &sheet_table[..m];
    let script_table = &script_table[..m];
    if names::any_names_hidden(n, hidden, script_table) {
        return Err(PaperRefusal {
            paper: Subject::Both,
            refusal: Refusal::Mismatch,
        });
    }
    let verdict = mark::verdict(n, hidden, sheet_table, script_table, workspace, values);
    Ok(Marked {
        quantities: n,
        verdict,
    })
}

// The checks that calls on a table with a workspace begin with.
ghost use Rattle.std.specs.Prelude.{◌≡◌, Ok};
ghost use Rattle.keys.specs.Keys.{lent_checks};

use rules::refusal::Refusal;
use tables::reply::Reply;
use tables::table;

// Whether a table and a workspace of so many words serve `n` quantities: 1 for `n` and the table, 6 for the workspace.
pub(crate) fn lent(n: usize, table_words: usize, workspace_words: usize) -> Reply
    ensures { result ≡ lent_checks n table_words workspace_words (Ok tt) }
{
    if !table::serves(n, table_words) {
        return Err(Refusal::Size);
    }
    let needed = table::size(n);
    if workspace_words < needed {
        return Err(Refusal::TooShort { needed });
    }
    Ok(())
}

// The test whether a table's rules name hidden quantities, as those of a script may not.
ghost use Rattle.std.specs.Prelude.{◌≡◌, length};
ghost use Rattle.rules.specs.Hidden.{hidden_in};
ghost use Rattle.tables.specs.Tables.{names_hidden};
ghost use Rattle.tables.specs.Meaning.{TableSized};
ghost use Rattle.tables.specs.Promises.{HiddenNamed};

use crate::{place, table};
use rules::hidden::Set;
use rules::rule::Rule;
use rules::sheet::Sheet;
use rules::{hidden, literal};

// Whether a rule names a quantity of the set.
#[tactic(auto, unfolding(crate::specs::Tables::names_hidden))]
fn names_hidden(set: Set, rule: Rule) -> bool
    ensures { result ≡ names_hidden (hidden_in set) rule }
{
    match rule {
        Rule::One { literal, .. } => hidden::is_hidden(set, literal::quantity(literal)),
        Rule::Two { first, second, .. } => {
            hidden::is_hidden(set, literal::quantity(first))
                || hidden::is_hidden(set, literal::quantity(second))
        }
        Rule::Nothing { .. } => false,
    }
}

// Whether a rule of the table names a quantity of the set.
pub fn any_names_hidden(n: usize, set: Set, table: &[i64]) -> bool
    requires { TableSized n (length table.now) }
    ensures { HiddenNamed n (hidden_in set) table.now result }
{
    for (k, &w) in table[..table::size(n)].iter().enumerate() {
        if w < Sheet::NO_RULE && names_hidden(set, place::rule_at(k as u32, w)) {
            return true;
        }
    }
    false
}

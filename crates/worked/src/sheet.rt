// The steps of an example: a heading, an empty table, rules put in, the key.
ghost use Rattle.std.specs.Prelude.{◌≡◌, get_or, take};
ghost use Rattle.rules.specs.Limits.{no_rule};
ghost use Rattle.tables.specs.Tables.{table_size};

use crate::printing::Spelled;
use rules::hidden::Set;
use rules::refusal;
use rules::rule::Rule;
use rules::sheet::Sheet;
use tables::reply::Reply;
use tables::{place, table};

// The places of a table over 6 quantities, the most that an example here has.
pub const PLACES: usize = 72;

// An example: its number of quantities, and the table that its rules are put in.
#[derive(Clone, Copy)]
pub(crate) struct Example {
    pub quantities: usize,
    pub table: [i64; PLACES],
}

impl Example {
    // Begins an example over `n` quantities: its heading, and no rules.
    pub(crate) fn begin(rt: &impl Print, heading: &str, n: usize) -> Example {
        head(rt, heading);
        let mut table = [0; PLACES];
        let _ = table::empty(n, &mut table);
        Example {
            quantities: n,
            table,
        }
    }

    // Prints a rule of signed quantity numbers, 0 for none, and puts it in. A refusal is printed, since no example expects one.
    pub(crate) fn put(&mut self, rt: &impl Print, first: i32, second: i32, bound: i64) {
        let rule = Rule::new(first, second, bound);
        print_rule(rt, "put=", rule);
        let reply = table::put(self.quantities, &mut self.table, rule);
        if reply.is_err() {
            print_reply(rt, &reply);
        }
    }

    // Replaces the table by its key and prints the reply, and the key's rules where there is one. The set has bit q - 1 for quantity q.
    pub(crate) fn key(&mut self, rt: &impl Print, hidden: Set) {
        let mut workspace = [0; PLACES];
        let reply = keys::key::key(self.quantities, hidden, &mut self.table, &mut workspace);
        print_reply(rt, &reply);
        if reply.is_ok() {
            self.print_rules(rt);
        }
    }

    // The word of a place; the no-rule word where the table has no such place.
    pub(crate) fn word_at(&self, k: usize) -> i64
        ensures { result ≡ get_or (take (table_size self.now.quantities) self.now.table) k no_rule }
    {
        if table::size(self.quantities) <= k {
            return Sheet::NO_RULE;
        }
        self.table.get(k).copied().unwrap_or(Sheet::NO_RULE)
    }

    // Prints the rules in place order, as document 01's writer does.
    fn print_rules(&self, rt: &impl Print) {
        for k in 0..PLACES {
            let word = self.word_at(k);
            if word < Sheet::NO_RULE {
                print_rule(rt, "rule=", place::rule_at(k as u32, word));
            }
        }
    }
}

// Prints a heading.
pub(crate) fn head(rt: &impl Print, heading: &str) {
    let _ = println!(rt; "{heading}");
}

// Prints a rule on a line of its own, after the name given.
pub(crate) fn print_rule(rt: &impl Print, name: &str, rule: Rule) {
    let rule = Spelled(rule);
    let _ = println!(rt; "{name}{rule}");
}

// Prints the number of a reply.
pub(crate) fn print_reply(rt: &impl Print, reply: &Reply) {
    let number = refusal::number_of(reply);
    let _ = println!(rt; "reply={number}");
}

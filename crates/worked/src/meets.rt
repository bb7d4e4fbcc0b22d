// Whether integers meet the rules of a table, counted from the integers alone. Which assignment the library finds is left free, so none is printed.
ghost use Rattle.std.specs.Prelude.{◌≡◌};
ghost use Rattle.integers.specs.Bound.{saturated};
ghost use Rattle.rules.specs.Meaning.{literal_value};
ghost use Rattle.tables.specs.Meaning.{assignment_of};
ghost use Rattle.worked.specs.Values.{term_word};

use crate::sheet;
use crate::sheet::Example;
use rules::rule::Rule;
use rules::sheet::Sheet;
use tables::place;

// The word nearest to the value of a literal; a quantity without a value counts as 0.
fn literal_value(values: &[i64], x: u32) -> i64
    ensures { result ≡ saturated (literal_value (assignment_of values.now) x) }
{
    let value = values.get(x as usize / 2).copied().unwrap_or(0);
    if x % 2 == 0 {
        value
    } else {
        integers::saturating_add(integers::opposite(value), 1)
    }
}

// The value of a rule's term. Past the range of words the nearest word stands for it.
fn term_value(values: &[i64], rule: Rule) -> i64
    ensures { result ≡ term_word (assignment_of values.now) rule }
{
    match rule {
        Rule::One { literal, bound: _ } => literal_value(values, literal),
        Rule::Two {
            first,
            second,
            bound: _,
        } => integers::saturating_add(literal_value(values, first), literal_value(values, second)),
        Rule::Nothing { bound: _ } => 0,
    }
}

// Prints the first rule by place that the values break, or that every rule is met.
pub(crate) fn print_broken(rt: &impl Print, example: &Example, values: &[i64]) {
    for k in 0..sheet::PLACES {
        let word = example.word_at(k);
        if word < Sheet::NO_RULE {
            let rule = place::rule_at(k as u32, word);
            if word < term_value(values, rule) {
                sheet::print_rule(rt, "broken=", rule);
                return;
            }
        }
    }
    sheet::head(rt, "every rule is met");
}

// Finds an assignment of a table over 3 quantities, prints the reply, and checks the integers where there are some.
pub(crate) fn assignment(rt: &impl Print, example: &Example) {
    let mut workspace = [0; sheet::PLACES];
    let mut values = [0; 3];
    let reply = keys::assignment::assignment(
        example.quantities,
        &example.table,
        &mut workspace,
        &mut values,
    );
    sheet::print_reply(rt, &reply);
    if reply.is_ok() {
        print_broken(rt, example, &values);
    }
}

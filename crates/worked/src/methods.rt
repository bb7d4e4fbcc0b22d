// The by-value methods of a rule, on document 01's numbers: the opposite, a doubled term halved, and sums over a literal.
use crate::printing::{Literal, Spelled};
use rules::rule::Rule;

// The literals over which sums are taken here.
const PLUS_ONE: u32 = 0;

const PLUS_TWO: u32 = 2;

const MINUS_TWO: u32 = 3;

// All of these.
pub(crate) fn run(rt: &impl Print) {
    opposites(rt);
    halves(rt);
    sums_of_doubled_terms(rt);
    sums_of_two_terms(rt);
    sums_of_one_term(rt);
    bare_sums(rt);
}

// The opposite of a rule.
fn print_opposite(rt: &impl Print, rule: Rule) {
    let opposite = Spelled(rule.opposite());
    let rule = Spelled(rule);
    let _ = println!(rt; "the opposite of {rule} is {opposite}");
}

// A rule halved.
fn print_half(rt: &impl Print, rule: Rule) {
    let half = Spelled(rule.halved());
    let rule = Spelled(rule);
    let _ = println!(rt; "{rule} halved is {half}");
}

// The sum of two rules over a literal of the first.
fn print_sum(rt: &impl Print, first: Rule, second: Rule, literal: u32) {
    let sum = Spelled(first.sum(second, literal));
    let first = Spelled(first);
    let second = Spelled(second);
    let literal = Literal(literal);
    let _ = println!(rt; "the sum of {first} and {second} over {literal} is {sum}");
}

// The opposite of t <= c is -t <= -c - 1, also where the term is doubled or there is none.
fn opposites(rt: &impl Print) {
    print_opposite(rt, Rule::new(1, 0, 3));
    print_opposite(rt, Rule::new(1, 3, 5));
    print_opposite(rt, Rule::new(3, -2, 0));
    print_opposite(rt, Rule::new(-1, 0, -1));
    print_opposite(rt, Rule::new(1, 1, 7));
    print_opposite(rt, Rule::new(0, 0, 0));
}

// Document 01's halvings, and terms that are not doubled, which stay.
fn halves(rt: &impl Print) {
    print_half(rt, Rule::new(1, 1, 7));
    print_half(rt, Rule::new(1, 1, 0));
    print_half(rt, Rule::new(1, 1, -1));
    print_half(rt, Rule::new(1, 1, -3));
    print_half(rt, Rule::new(-1, -1, -1));
    print_half(rt, Rule::new(1, 0, 7));
    print_half(rt, Rule::new(1, 2, 7));
}

// Sums whose two remaining terms are alike: the same halvings.
fn sums_of_doubled_terms(rt: &impl Print) {
    print_sum(rt, Rule::new(1, 2, 5), Rule::new(1, -2, 2), PLUS_TWO);
    print_sum(rt, Rule::new(1, 2, 0), Rule::new(1, -2, 0), PLUS_TWO);
    print_sum(rt, Rule::new(1, 2, 0), Rule::new(1, -2, -1), PLUS_TWO);
    print_sum(rt, Rule::new(1, 2, 0), Rule::new(1, -2, -3), PLUS_TWO);
}

// Sums that leave two terms, the lower quantity first.
fn sums_of_two_terms(rt: &impl Print) {
    print_sum(rt, Rule::new(1, 2, 5), Rule::new(3, -2, 0), PLUS_TWO);
    print_sum(rt, Rule::new(3, -2, 0), Rule::new(1, 2, 5), MINUS_TWO);
    print_sum(
        rt,
        Rule::new(1, -2, 1_000_000_000),
        Rule::new(2, -3, 1_000_000_000),
        MINUS_TWO,
    );
}

// Sums that leave one term, since one of the rules has no other.
fn sums_of_one_term(rt: &impl Print) {
    print_sum(rt, Rule::new(1, 2, 5), Rule::new(-2, 0, -1), PLUS_TWO);
    print_sum(rt, Rule::new(2, 0, 1), Rule::new(1, -2, 2), PLUS_TWO);
}

// Bare sums: the rest cancels, or nothing remains. A bound below 0 is a contradiction.
fn bare_sums(rt: &impl Print) {
    print_sum(rt, Rule::new(1, 2, 1), Rule::new(-1, -2, -1), PLUS_ONE);
    print_sum(rt, Rule::new(1, -2, 0), Rule::new(-1, 2, -1), PLUS_ONE);
    print_sum(rt, Rule::new(1, 0, 0), Rule::new(-1, 0, -1), PLUS_ONE);
}

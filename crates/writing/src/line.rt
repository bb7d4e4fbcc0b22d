// The line of a rule, and one of a key and a number.
// Kept: each writer takes the output and a cursor and answers the cursor after what it wrote. A struct of both would be no plainer: each clause would name its two fields before and after, and
// `Spliced` would still be said of them.
ghost use Rattle.std.specs.Prelude.{◌≡◌, ◌+◌, ◌≤◌, length};
ghost use Rattle.numerals.specs.Writing.{Spliced};
ghost use Rattle.lines.specs.Spelling.{term_text};
ghost use Rattle.writing.specs.Writing.{count_text, literal_term, rule_line_text};
ghost use Rattle.writing.specs.Inner.{bound_text, rule_value_text};

use numerals::write;
use rules::literal;
use rules::rule::Rule;

// How many bytes a literal takes, as +1 or -12; one of 32 bits has at most 11.
fn term_width(x: u32) -> usize
    ensures { (result ≡ length (term_text (literal_term x))) × (result ≤ 11) }
{
    // 1 for the sign
    1 + write::width(literal::quantity(x) as u64)
}

// Writes a literal; answers the cursor after it.
#[tactic(auto, using(crate::proofs::Lines::term_length))]
fn put_term(out: &mut [u8], at: usize, x: u32) -> usize
    requires { at + length (term_text (literal_term x)) ≤ length out.old }
    ensures { Spliced out.old at (term_text (literal_term x)) result out.new }
{
    let sign = if x % 2 == 1 { b'-' } else { b'+' };
    let digits = write::put_byte(out, at, sign);
    write::put_number(out, digits, literal::quantity(x) as u64)
}

// How many bytes a bound takes with the colon before it; a word has at most 21.
#[tactic(auto, using(crate::proofs::Lines::word_short))]
fn bound_width(bound: i64) -> usize
    ensures { (result ≡ length (bound_text bound)) × (result ≤ 21) }
{
    // 1 for the colon
    1 + write::signed_width(bound)
}

// Writes a bound with the colon before it; answers the cursor after them.
fn put_bound(out: &mut [u8], at: usize, bound: i64) -> usize
    requires { at + length (bound_text bound) ≤ length out.old }
    ensures { Spliced out.old at (bound_text bound) result out.new }
{
    let digits = write::put_byte(out, at, b':');
    write::put_signed(out, digits, bound)
}

// How many bytes a rule's value takes; two literals and a bound have at most 43.
#[tactic(auto, using(crate::proofs::Lines::value_one_length, crate::proofs::Lines::value_two_length, crate::proofs::Lines::value_bare))]
fn value_width(rule: Rule) -> usize
    ensures { (result ≡ length (rule_value_text rule)) × (result ≤ 43) }
{
    match rule {
        Rule::One { literal, bound } => term_width(literal) + bound_width(bound),
        Rule::Two {
            first,
            second,
            bound,
        } => term_width(first) + term_width(second) + bound_width(bound),
        Rule::Nothing { .. } => 0,
    }
}

// Writes a rule's value, the terms in the rule's order, and for a bare rule nothing; answers the cursor after it.
#[tactic(auto, using(crate::proofs::Lines::value_one_length, crate::proofs::Lines::value_two_length))]
fn put_value(out: &mut [u8], at: usize, rule: Rule) -> usize
    requires { at + length (rule_value_text rule) ≤ length out.old }
    ensures { Spliced out.old at (rule_value_text rule) result out.new }
{
    match rule {
        Rule::One { literal, bound } => {
            let colon = put_term(out, at, literal);
            put_bound(out, colon, bound)
        }
        Rule::Two {
            first,
            second,
            bound,
        } => {
            let next = put_term(out, at, first);
            let colon = put_term(out, next, second);
            put_bound(out, colon, bound)
        }
        Rule::Nothing { .. } => at,
    }
}

// How many bytes a rule's line takes.
#[tactic(auto, using(crate::proofs::Lines::line_length))]
pub fn rule_width(rule: Rule) -> usize
    ensures { result ≡ length (rule_line_text rule) }
{
    // 5 for `rule=` and 1 for the line's end
    6 + value_width(rule)
}

// Writes a rule's line, `rule=` alone for a bare rule; answers the cursor after it.
#[tactic(auto, using(crate::proofs::Lines::line_length))]
pub fn put_rule(out: &mut [u8], at: usize, rule: Rule) -> usize
    requires { at + length (rule_line_text rule) ≤ length out.old }
    ensures { Spliced out.old at (rule_line_text rule) result out.new }
{
    let value = write::put_text(out, at, b"rule=");
    let end = put_value(out, value, rule);
    write::put_byte(out, end, b'\n')
}

// Writes a key, a number and the line's end; answers the cursor after them.
#[tactic(auto, using(crate::proofs::Lines::count_length))]
pub fn put_count(out: &mut [u8], at: usize, key: &[u8], value: usize) -> usize
    requires { at + length (count_text key.now value) ≤ length out.old }
    ensures { Spliced out.old at (count_text key.now value) result out.new }
{
    let from = write::put_text(out, at, key);
    let end = write::put_number(out, from, value as u64);
    write::put_byte(out, end, b'\n')
}

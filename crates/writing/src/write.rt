// A table and a hidden set written as a text.
ghost use Rattle.std.specs.Prelude.{◌≡◌, ◌+◌, ◌*◌, ◌≤◌, ◌<◌, length};
ghost use Rattle.places.specs.Numbering.{block_start};
ghost use Rattle.numerals.specs.Writing.{Spliced};
ghost use Rattle.rules.specs.Limits.{max_quantities};
ghost use Rattle.writing.specs.Writing.{writing_value};
ghost use Rattle.writing.specs.Promises.{max_line, TextWritten};
ghost use Rattle.writing.specs.Inner.{place_text, rules_text, Measured, MeasuredMore};

use crate::{header, line};
use rules::hidden;
use rules::hidden::Set;
use rules::refusal::Refusal;
use rules::sheet::Sheet;
use tables::{place, table};

// how many bytes were written, or the refusal
pub type Writing = Result<usize, Refusal>;

// The text's length, or what is returned beside a refusal's number, the length needed; 0 where there is nothing.
pub fn value(answer: &Writing) -> usize
    ensures { result ≡ writing_value answer.now }
{
    match answer {
        Ok(length) => *length,
        Err(refusal) => refusal.value(),
    }
}

// How many rules a table has, and how many bytes their lines take.
#[derive(Clone, Copy, PartialEq, Eq, Debug)]
struct Measure {
    rules: usize,
    bytes: usize,
}

impl Measure {
    // With the word of one place more; the line of a place's rule has at most `max_line` bytes.
    fn with(self, k: u32, w: i64) -> Measure
        requires { (k < block_start max_quantities) × (self.rules ≤ k) × (self.bytes ≤ max_line * k) }
        ensures { MeasuredMore k w self result }
    {
        if w < Sheet::NO_RULE {
            return Measure {
                rules: self.rules + 1,
                bytes: self.bytes + line::rule_width(place::rule_at(k, w)),
            };
        }
        self
    }
}

// Measures the rules that a table's places hold.
fn measured(places: &[i64]) -> Measure
    requires { length places.now ≤ block_start max_quantities }
    ensures { Measured places.now result }
{
    let mut total = Measure { rules: 0, bytes: 0 };
    for (k, &w) in places.iter().enumerate() {
        total = total.with(k as u32, w);
    }
    total
}

// Writes the line of the rule at a place, where it has one; answers the cursor after it.
fn put_place(out: &mut [u8], at: usize, k: u32, w: i64) -> usize
    requires { at + length (place_text k w) ≤ length out.old }
    ensures { Spliced out.old at (place_text k w) result out.new }
{
    if w < Sheet::NO_RULE {
        return line::put_rule(out, at, place::rule_at(k, w));
    }
    at
}

// Writes the lines of the rules that a table's places hold; answers the cursor after them.
fn put_rules(out: &mut [u8], from: usize, places: &[i64]) -> usize
    requires { (length places.now ≤ block_start max_quantities) × (from + length (rules_text places.now) ≤ length out.old) }
    ensures { Spliced out.old from (rules_text places.now) result out.new }
{
    let mut at = from;
    for (k, &w) in places.iter().enumerate() {
        at = put_place(out, at, k as u32, w);
    }
    at
}

// Writes a table over `n` quantities and a hidden set at the start of the output. Any word but the no-rule word is printed as a bound.
// Kept: n and the hidden set as two numbers, not a `Sheet`: document 01 lends them so, and the calls for C (`acornsled_write`) hand them on as they came.
pub fn write(n: usize, set: Set, table: &[i64], out: &mut [u8]) -> Writing
    ensures { TextWritten n set table.now out.old result out.new }
{
    if !table::serves(n, table.len()) {
        return Err(Refusal::Size);
    }
    if !hidden::is_within(set, n) {
        return Err(Refusal::OutOfLimit { line: 0 });
    }
    let places = &table[..table::size(n)];
    let rules = measured(places);
    let needed = header::header_width(n, set, rules.rules) + rules.bytes;
    if out.len() < needed {
        return Err(Refusal::TooShort { needed });
    }
    let body = header::put_header(out, n, set, rules.rules);
    let end = put_rules(out, body, places);
    Ok(end)
}

// The form of a rule line.
ghost use Rattle.std.specs.Prelude.{◌≡◌, drop};
ghost use Rattle.lines.specs.Lines.{bound_line, rule_line};
ghost use Rattle.lines.specs.Inner.{found_answer, second_line, one_form, two_form, form, form_within};

use crate::signed;
use numerals::byte;
use numerals::byte::Kind;
use numerals::read::Found;
use rules::literal;

// A rule as it is written: its signed quantity numbers, of which the second may be missing, and its bound, all magnitudes capped.
#[derive(Clone, Copy, PartialEq, Eq, Debug)]
pub(crate) struct Spelled {
    pub(crate) first: i64,
    pub(crate) second: Option<i64>,
    pub(crate) bound: i64,
}

impl Spelled {
    // Whether its numbers are in their limits, over `n` quantities with bounds up to `limit` in magnitude.
    pub(crate) fn is_within(self, n: usize, limit: u64) -> bool
        ensures { result ≡ form_within n limit self }
    {
        literal::is_quantity(self.first, n)
            && self.second.is_none_or(|term| literal::is_quantity(term, n))
            && integers::magnitude(self.bound) <= limit
    }
}

// A rule of one term, whose bound is at the cursor.
fn rule_of_one(s: &[u8], at: usize, first: i64) -> Option<Found<Spelled>>
    ensures { result ≡ found_answer (one_form first) s.now (bound_line (drop at s.now)) }
{
    let bound = signed::bound_line(s, at)?;
    Some(Found {
        value: Spelled {
            first,
            second: None,
            bound: bound.value,
        },
        next: bound.next,
    })
}

// A rule of two terms, of which the second is at the cursor.
fn rule_of_two(s: &[u8], at: usize, first: i64) -> Option<Found<Spelled>>
    ensures { result ≡ found_answer (two_form first) s.now (second_line (drop at s.now)) }
{
    let second = signed::term_at(s, at)?;
    if Kind::from(byte::byte_at(s, second.next)) != Kind::Colon {
        return None;
    }
    let bound = signed::bound_line(s, second.next + 1)?;
    Some(Found {
        value: Spelled {
            first,
            second: Some(second.value),
            bound: bound.value,
        },
        next: bound.next,
    })
}

// The rule line at the cursor.
pub(crate) fn spelled_at(s: &[u8], at: usize) -> Option<Found<Spelled>>
    ensures { result ≡ found_answer form s.now (rule_line (drop at s.now)) }
{
    let key = b"rule=";
    if !byte::has_key(s, at, key) {
        return None;
    }
    let first = signed::term_at(s, at + key.len())?;
    if Kind::from(byte::byte_at(s, first.next)) != Kind::Colon {
        return rule_of_two(s, first.next, first.value);
    }
    rule_of_one(s, first.next + 1, first.value)
}

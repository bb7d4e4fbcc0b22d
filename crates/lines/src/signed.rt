// A signed quantity number, and a bound with its line's end.
ghost use Rattle.std.specs.Prelude.{◌≡◌, ◌≤◌, drop};
ghost use Rattle.numerals.specs.Decimal.{cap};
ghost use Rattle.numerals.specs.Parsing.{and_then, numeral_of};
ghost use Rattle.lines.specs.Lines.{term_of, bound_at, bound_line};
ghost use Rattle.lines.specs.Inner.{found_answer, capped_integer, capped_term, with_sign, sign_of, signed_bound};

use crate::ending;
use numerals::byte::Kind;
use numerals::read::Found;
use numerals::{byte, read};

// A number with a minus or without one.
fn with_sign(minus: bool, value: u64) -> i64
    requires { value ≤ cap }
    ensures { result ≡ with_sign minus value }
{
    if minus {
        return -(value as i64);
    }
    value as i64
}

// Whether the sign at the cursor is a minus; nothing where no sign is.
fn sign_at(s: &[u8], at: usize) -> Option<bool>
    ensures { result ≡ sign_of (drop at s.now) }
{
    match Kind::from(byte::byte_at(s, at)) {
        Kind::Plus => Some(false),
        Kind::Minus => Some(true),
        _ => None,
    }
}

// The signed quantity number at the cursor. Both signs share one reading of the number.
pub(crate) fn term_at(s: &[u8], at: usize) -> Option<Found<i64>>
    ensures { result ≡ found_answer capped_term s.now (term_of (drop at s.now)) }
{
    let minus = sign_at(s, at)?;
    let found = read::numeral_at(s, at + 1)?;
    Some(Found {
        value: with_sign(minus, found.value),
        next: found.next,
    })
}

// The number of a bound, after a minus or without one; `-0` is malformed.
fn after_sign(s: &[u8], at: usize, minus: bool) -> Option<Found<i64>>
    ensures { result ≡ found_answer capped_integer s.now (and_then (numeral_of (drop at s.now)) (signed_bound minus)) }
{
    let found = read::numeral_at(s, at)?;
    if minus && found.value == 0 {
        return None;
    }
    Some(Found {
        value: with_sign(minus, found.value),
        next: found.next,
    })
}

// The bound at the cursor. Both signs share one reading of the number, which begins past a minus.
fn bound_at(s: &[u8], at: usize) -> Option<Found<i64>>
    ensures { result ≡ found_answer capped_integer s.now (bound_at (drop at s.now)) }
{
    let minus = Kind::from(byte::byte_at(s, at)) == Kind::Minus;
    after_sign(s, at + minus as usize, minus)
}

// The bound at the cursor and the end of its line, with the cursor after that.
pub(crate) fn bound_line(s: &[u8], at: usize) -> Option<Found<i64>>
    ensures { result ≡ found_answer capped_integer s.now (bound_line (drop at s.now)) }
{
    let bound = bound_at(s, at)?;
    ending::ended(s, bound)
}

// A numeral read at a cursor.
ghost use Rattle.std.specs.Prelude.{◌≡◌, Some, true, ◌+◌, ◌-◌, ◌*◌, ◌≤◌, ◌<◌, length, drop};
ghost use Rattle.numerals.specs.Bytes.{is_digit, digit_zero};
ghost use Rattle.numerals.specs.Decimal.{capped};
ghost use Rattle.numerals.specs.Parsing.{numeral_of, digits_from, numeral_answer};

use crate::byte;

// The least value that is not told apart from larger ones (specs/Decimal.antt).
const CAP: u64 = 9_000_000_000_000_000_000;

// What stands at a cursor, and the cursor after it.
// Kept: it has no `map`: the promise of one would be its closure's, and so no plainer than the two fields.
#[derive(Clone, Copy, PartialEq, Eq, Debug)]
pub struct Found<T> {
    pub value: T,
    pub next: usize,
}

// The value `v` with a digit after it, as far as values are told.
fn with_digit(v: u64, b: u8) -> u64
    requires { is_digit b ≡ true }
    ensures { result ≡ capped (10 * v + (b - digit_zero)) }
{
    if v < CAP / 10 {
        return v * 10 + (b - b'0') as u64;
    }
    CAP
}

// The value of the digits at the cursor, which follow others of the value `first`.
fn digits(s: &[u8], at: usize, first: u64) -> Found<u64>
    requires { (first < 10) × (at ≤ length s.now) }
    ensures { Some result ≡ numeral_answer s.now (digits_from first (drop at s.now)) }
{
    let mut value = first;
    for next in at..s.len() {
        if !byte::is_digit_at(s, next) {
            return Found { value, next };
        }
        value = with_digit(value, s[next]);
    }
    Found {
        value,
        next: s.len(),
    }
}

// The numeral at the cursor: all digits that stand there, of any number. One with a leading zero is malformed, and so is none.
pub fn numeral_at(s: &[u8], at: usize) -> Option<Found<u64>>
    ensures { result ≡ numeral_answer s.now (numeral_of (drop at s.now)) }
{
    if !byte::is_digit_at(s, at) {
        return None;
    }
    let b = s[at];
    if b != b'0' {
        return Some(digits(s, at + 1, (b - b'0') as u64));
    }
    if byte::is_digit_at(s, at + 1) {
        return None;
    }
    Some(Found {
        value: 0,
        next: at + 1,
    })
}

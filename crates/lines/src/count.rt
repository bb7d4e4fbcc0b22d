// A line of a key and a number, `quantities=` or `rules=`.
ghost use Rattle.std.specs.Prelude.{◌≡◌, ◌<◌, ◌≤◌, drop};
ghost use Rattle.numerals.specs.Decimal.{cap, capped};
ghost use Rattle.lines.specs.Lines.{count_line, count_judged};
ghost use Rattle.lines.specs.Answers.{count_answer, number_values, LineAnswered};
ghost use Rattle.lines.specs.Inner.{found_answer};

use crate::answer::Line;
use crate::{answer, ending};
use numerals::read::Found;
use numerals::{byte, read};
use rules::refusal::Refusal;

// The key at the cursor, a number and the line's end.
fn number_line(s: &[u8], at: usize, key: &[u8]) -> Option<Found<u64>>
    ensures { result ≡ found_answer capped s.now (count_line key.now (drop at s.now)) }
{
    if !byte::has_key(s, at, key) {
        return None;
    }
    let found = read::numeral_at(s, at + key.len())?;
    ending::ended(s, found)
}

// The line at the cursor, its number being one of `least` to `most`.
pub fn count_line(
    s: &[u8],
    at: usize,
    key: &[u8],
    least: usize,
    most: usize,
    line: usize,
) -> Line<usize>
    requires { (least ≤ cap) × (most < cap) }
    ensures { LineAnswered number_values (count_answer s.now) (count_judged key.now least most line (drop at s.now)) result }
{
    let found = answer::well_formed(number_line(s, at, key), line)?;
    let count = found.value as usize;
    if count < least || most < count {
        return Err(Refusal::OutOfLimit { line });
    }
    Ok(Found {
        value: count,
        next: found.next,
    })
}

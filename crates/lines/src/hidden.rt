// The line of hidden quantities.
ghost use Rattle.std.specs.Prelude.{◌≡◌, ◌&&◌, ◌+◌, ◌*◌, ◌^◌, ◌<◌, ◌≤◌, drop};
ghost use Rattle.rules.specs.Limits.{max_quantities};
ghost use Rattle.rules.specs.Literal.{quantity_within};
ghost use Rattle.lines.specs.Lines.{hidden_line, hidden_judged};
ghost use Rattle.lines.specs.Answers.{hidden_answer, number_values, LineAnswered};
ghost use Rattle.lines.specs.Inner.{found_answer, member_bit, members_of, list_answer};

use crate::answer::Line;
use crate::{answer, ending};
use numerals::byte::Kind;
use numerals::read::Found;
use numerals::{byte, compare, read};
use rules::hidden::Set;
use rules::refusal::Refusal;

// The quantities read so far, and whether each number read was one of 1 to n.
// Kept: a flag beside the set: an Option here, in the Option of what is found, would have two kinds of nothing, a malformed line and numbers outside their limit, of which the first comes first.
#[derive(Clone, Copy, PartialEq, Eq, Debug)]
struct Members {
    set: Set,
    within: bool,
}

impl Members {
    // Those of no number.
    const NONE: Members = Members {
        set: 0,
        within: true,
    };

    // With one number more, which is above all before it.
    fn with(self, q: u64, n: usize) -> Members
        requires { (n ≤ max_quantities) × (q ≤ n → 2 * self.set < 2 ^ q) }
        ensures set { result.set ≡ self.set + member_bit n q }
        ensures within { result.within ≡ ◌&&◌ (quantity_within n q) self.within }
    {
        if q < 1 || n < q as usize {
            return Members {
                within: false,
                ..self
            };
        }
        Members {
            set: self.set + rules::hidden::bit(q as usize),
            ..self
        }
    }
}

// A list of at least one number from the cursor to the line's end. Numbers are compared by their digits, since they may have any size; before the first one
// stands the empty numeral, which is smaller than all.
fn listed(s: &[u8], at: usize, n: usize) -> Option<Found<Members>>
    requires { n ≤ max_quantities }
    ensures { result ≡ list_answer n s.now (drop at s.now) }
{
    let mut members = Members::NONE;
    let mut before: &[u8] = b"";
    let mut from = at;
    // Kept: the cursor goes from numeral to numeral by what each reading found, and what follows a numeral decides whether another one comes: a `split` at commas would look for the line's end and the commas first, and be no plainer.
    while from < s.len() {
        let found = read::numeral_at(s, from)?;
        let digits = &s[from..found.next];
        if !compare::is_smaller(before, digits) {
            return None;
        }
        members = members.with(found.value, n);
        if Kind::from(byte::byte_at(s, found.next)) != Kind::Comma {
            return ending::ended(
                s,
                Found {
                    value: members,
                    next: found.next,
                },
            );
        }
        before = digits;
        from = found.next + 1;
    }
    None
}

// The key at the cursor, a list and the line's end.
fn list_line(s: &[u8], at: usize, n: usize) -> Option<Found<Members>>
    requires { n ≤ max_quantities }
    ensures { result ≡ found_answer (members_of n) s.now (hidden_line (drop at s.now)) }
{
    let key = b"hidden=";
    if !byte::has_key(s, at, key) {
        return None;
    }
    let from = at + key.len();
    if Kind::from(byte::byte_at(s, from)) != Kind::LineEnd {
        return listed(s, from, n);
    }
    Some(Found {
        value: Members::NONE,
        next: from + 1,
    })
}

// The line at the cursor, in a text over `n` quantities. A list that does not increase is malformed, also where its numbers are outside their limits.
pub fn hidden_line(s: &[u8], at: usize, n: usize, line: usize) -> Line<Set>
    requires { n ≤ max_quantities }
    ensures { LineAnswered number_values (hidden_answer s.now) (hidden_judged n line (drop at s.now)) result }
{
    let found = answer::well_formed(list_line(s, at, n), line)?;
    if !found.value.within {
        return Err(Refusal::OutOfLimit { line });
    }
    Ok(Found {
        value: found.value.set,
        next: found.next,
    })
}

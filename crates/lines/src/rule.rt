// A rule line: the rule as written, its numbers in their limits.
ghost use Rattle.std.specs.Prelude.{◌<◌, ◌≤◌, drop};
ghost use Rattle.numerals.specs.Decimal.{cap};
ghost use Rattle.rules.specs.Limits.{max_quantities};
ghost use Rattle.rules.specs.RuleWords.{rule_values};
ghost use Rattle.lines.specs.Lines.{rule_judged};
ghost use Rattle.lines.specs.Answers.{rule_answer, LineAnswered};

use crate::answer::Line;
use crate::{answer, spelled};
use numerals::read::Found;
use rules::refusal::Refusal;
use rules::rule::Rule;

// The rule line at the cursor, in a text over `n` quantities with bounds up to `limit` in magnitude: 3 where a number is outside its limit, then 4 where the
// terms cancel.
pub fn rule_line(s: &[u8], at: usize, n: usize, limit: u64, line: usize) -> Line<Rule>
    requires { (n ≤ max_quantities) × (limit < cap) }
    ensures { LineAnswered rule_values (rule_answer s.now) (rule_judged n limit line (drop at s.now)) result }
{
    let found = answer::well_formed(spelled::spelled_at(s, at), line)?;
    let form = found.value;
    if !form.is_within(n, limit) {
        return Err(Refusal::OutOfLimit { line });
    }
    // A second term that is missing is 0, which cancels with no first one.
    let second = form.second.unwrap_or(0);
    if form.first + second == 0 {
        return Err(Refusal::Cancelling { line });
    }
    Ok(Found {
        value: Rule::new(form.first as i32, second as i32, form.bound),
        next: found.next,
    })
}

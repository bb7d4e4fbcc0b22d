// A rule given by numbers outside a text: two signed quantity numbers, +q as q and -q as -q, the second 0 for none, and a bound.
ghost use Rattle.std.specs.Prelude.{◌≤◌};
ghost use Rattle.rules.specs.Limits.{max_quantities};
ghost use Rattle.tables.specs.Given.{GivenAs};

use rules::paper::Paper;
use rules::rule::Rule;
use rules::{literal, paper};

// Why numbers state no rule.
#[derive(Clone, Copy, PartialEq, Eq, Debug)]
pub enum Misstated {
    // 3: a number outside its limit
    Outside,
    // 4: +q-q or -q+q
    Vanishes,
}

// The rule as written, where it is in the limits of a sheet's rule, and not +q-q.
pub type Given = Result<Rule, Misstated>;

// What the numbers are on a sheet over `n` quantities. The limit is on the bound as written, also of a doubled term.
// Kept: 0 for no second quantity: the C interface, where a question is three words.
pub fn of_numbers(n: usize, first: i64, second: i64, bound: i64) -> Given
    requires { n ≤ max_quantities }
    ensures { GivenAs n first second bound result }
{
    let most = paper::bound_limit(Paper::Sheet, n, 0) as u64;
    if !literal::is_quantity(first, n) || most < integers::magnitude(bound) {
        return Err(Misstated::Outside);
    }
    if second == 0 {
        return Ok(Rule::new(first as i32, 0, bound));
    }
    if !literal::is_quantity(second, n) {
        return Err(Misstated::Outside);
    }
    if first + second == 0 {
        return Err(Misstated::Vanishes);
    }
    Ok(Rule::new(first as i32, second as i32, bound))
}

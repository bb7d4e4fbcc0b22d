// A rule as three words for a host: two signed quantity numbers, 0 for one that is not there, and the bound; all 0 where there is no rule.
ghost use Rattle.std.specs.Prelude.{◌≡◌};
ghost use Rattle.rules.specs.Literal.{signed_of};
ghost use Rattle.rules.specs.RuleWords.{rule_words};
ghost use Rattle.marking.specs.Verdicts.{carried_words};

use crate::verdict::Verdict;
use rules::literal;
use rules::rule::Rule;

// The signed quantity number of a literal, +q as q and -q as -q.
fn signed(x: u32) -> i64
    ensures { result ≡ signed_of x }
{
    let q = literal::quantity(x) as i64;
    if x % 2 == 0 { q } else { -q }
}

// A rule's words.
fn words_of(rule: Rule) -> [i64; 3]
    ensures { result ≡ rule_words rule }
{
    match rule {
        Rule::One { literal, bound } => [signed(literal), 0, bound],
        Rule::Two {
            first,
            second,
            bound,
        } => [signed(first), signed(second), bound],
        Rule::Nothing { .. } => [0, 0, 0],
    }
}

// Writes the words of the rule that a verdict carries; equal carries none and leaves them.
// Kept: the C interface: a host lends the three words, and what stands there stays with equal (`carried_words`), so that they are written, not returned.
pub fn put_carried(verdict: Verdict, words: &mut [i64; 3])
    ensures { words.new ≡ carried_words words.old verdict }
{
    match verdict {
        Verdict::Equal => {}
        Verdict::Loose(rule) | Verdict::Tight(rule) => *words = words_of(rule),
    }
}

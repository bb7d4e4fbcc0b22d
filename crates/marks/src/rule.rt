// A rule as it goes into a table that carries its marks in its words.
ghost use Rattle.std.specs.Prelude.{◌≡◌, ◌^◌, pos};
ghost use Rattle.integers.specs.Bound.{Within};
ghost use Rattle.rules.specs.Meaning.{bound_of};
ghost use Rattle.marks.specs.Doubled.{doubled_rule};

use rules::rule::Rule;

// The rule with its bound doubled; a doubled term, whose bound would be halved, as the single one with the bound as it is.
#[tactic(auto, unfolding(crate::specs::Doubled::doubled_rule))]
pub fn doubled(rule: Rule) -> Rule
    requires { Within (pos (2 ^ 61)) (bound_of rule) }
    ensures { result ≡ doubled_rule rule }
{
    match rule {
        Rule::One { literal, bound } => Rule::One {
            literal,
            bound: bound + bound,
        },
        Rule::Two {
            first,
            second,
            bound,
        } if first == second => Rule::One {
            literal: first,
            bound,
        },
        Rule::Two {
            first,
            second,
            bound,
        } => Rule::Two {
            first,
            second,
            bound: bound + bound,
        },
        Rule::Nothing { bound } => Rule::Nothing {
            bound: bound + bound,
        },
    }
}

// A rule by value: the term of one literal, of two, or of none, and the bound that it is at most.
ghost use Rattle.std.specs.Prelude.{◌≡◌, ◌+ℤ◌};
ghost use Rattle.rules.specs.declared.rule.Rule.TheVariants.{One};
ghost use Rattle.rules.specs.declared.rule.Partner.TheVariants.{With};
ghost use Rattle.rules.specs.Literal.{literal_of};
ghost use Rattle.rules.specs.Meaning.{bound_of};
ghost use Rattle.rules.specs.Steps.{trivial_rule, loses_half, partner_of, rest_rule, fitted};
ghost use Rattle.rules.specs.Promises.{Made, Opposite, Halved, Added};

use crate::literal;
use crate::sheet::Sheet;

// A rule as written: its literals stand in the order given, and a doubled term stays doubled. The bare rule 0 ≤ c keeps its c.
#[derive(Clone, Copy, PartialEq, Eq, Debug)]
pub enum Rule {
    One { literal: u32, bound: i64 },
    Two { first: u32, second: u32, bound: i64 },
    Nothing { bound: i64 },
}

// What a rule leaves when a literal is taken from its term.
// Kept: an `Option<Option<u32>>` is no plainer: its two kinds of nothing, a term used up and a literal that is not there, have names here.
#[derive(Clone, Copy, PartialEq, Eq, Debug)]
pub enum Partner {
    With(u32),
    Alone,
    Absent,
}

impl Rule {
    // The rule of signed quantity numbers, +q as q and -q as -q, 0 standing for none. Every bound is taken as it is.
    #[tactic(auto, using(crate::proofs::Promised::made), unfolding(crate::specs::Steps::rule_of))]
    pub fn new(first: i32, second: i32, bound: i64) -> Rule
        ensures { Made first second bound result }
    {
        match (first, second) {
            (0, 0) => Rule::Nothing { bound },
            (0, second) => Rule::One {
                literal: of_signed(second),
                bound,
            },
            (first, 0) => Rule::One {
                literal: of_signed(first),
                bound,
            },
            (first, second) => Rule::Two {
                first: of_signed(first),
                second: of_signed(second),
                bound,
            },
        }
    }

    // The rule that says nothing, for where there is none to hand back.
    // Kept: an `Option` in place of this rule is ruled out by what may not change: `sum_over` and `Added` give it where a sum is none.
    pub fn trivial() -> Rule
        ensures { result ≡ trivial_rule }
    {
        Rule::Nothing {
            bound: Sheet::NO_RULE,
        }
    }

    // The bound.
    pub fn bound(self) -> i64
        ensures { result ≡ bound_of self }
    {
        match self {
            Rule::One { bound, .. } | Rule::Two { bound, .. } | Rule::Nothing { bound } => bound,
        }
    }

    // The opposite, which is met exactly where the rule is not. Its bound fits for every word.
    pub fn opposite(self) -> Rule
        ensures { Opposite self result }
    {
        let bound = integers::opposite(self.bound());
        match self {
            Rule::One { literal, .. } => Rule::One {
                literal: literal::negate(literal),
                bound,
            },
            Rule::Two { first, second, .. } => Rule::Two {
                first: literal::negate(first),
                second: literal::negate(second),
                bound,
            },
            Rule::Nothing { .. } => Rule::Nothing { bound },
        }
    }

    // A doubled term as the single one with its bound halved; any other rule as it is.
    #[tactic(auto, using(crate::proofs::Promised::is_halved), unfolding(crate::specs::Steps::halved_of))]
    pub fn halved(self) -> Rule
        ensures { Halved self result }
    {
        match self {
            Rule::Two {
                first,
                second,
                bound,
            } if first == second => Rule::One {
                literal: first,
                bound: integers::halved(bound),
            },
            other => other,
        }
    }

    // Whether halving the rule loses a half: its term is doubled and its bound odd.
    #[tactic(auto, unfolding(crate::specs::Steps::loses_half))]
    pub fn loses_half(self) -> bool
        ensures { result ≡ loses_half self }
    {
        match self {
            Rule::Two {
                first,
                second,
                bound,
            } => first == second && integers::halve(bound).odd,
            Rule::One { .. } | Rule::Nothing { .. } => false,
        }
    }

    // What is left of the term when `literal` is taken from it.
    #[tactic(auto, unfolding(crate::specs::Steps::partner_of))]
    pub fn partner(self, literal: u32) -> Partner
        ensures { result ≡ partner_of literal self }
    {
        match self {
            Rule::One { literal: only, .. } if only == literal => Partner::Alone,
            Rule::Two { first, second, .. } if first == literal => Partner::With(second),
            Rule::Two { first, second, .. } if second == literal => Partner::With(first),
            _ => Partner::Absent,
        }
    }

    // The sum with another rule over a literal of this one whose negation stands in the other, and the trivial rule where nothing cancels or
    // a term is left whose bound does not fit.
    #[tactic(auto, using(crate::proofs::Promised::adding), unfolding(crate::specs::Steps::sum_over))]
    pub fn sum(self, other: Rule, literal: u32) -> Rule
        ensures { Added literal self other result }
    {
        let mine = self.partner(literal);
        let theirs = other.partner(literal::negate(literal));
        rest(mine, theirs, self.bound(), other.bound())
    }
}

// The literal of a signed quantity number; 0, which names none, gets that of quantity 1.
fn of_signed(q: i32) -> u32
    ensures { result ≡ literal_of q }
{
    2 * q.unsigned_abs().saturating_sub(1) + u32::from(q < 0)
}

// The rule of one literal that is left of a sum of rules with the bounds `a` and `b`.
#[tactic(auto, unfolding(crate::specs::Steps::fitted, integers::specs::Bound::total_of))]
fn rest_of_one(x: u32, a: i64, b: i64) -> Rule
    ensures { result ≡ fitted (One x (a +ℤ b)) }
{
    match integers::add(a, b) {
        Some(bound) => Rule::One { literal: x, bound },
        None => Rule::trivial(),
    }
}

// The rule of two literals that are left: bare where they cancel, halved where they are alike, else with the lower first.
#[tactic(auto, using(crate::proofs::Promised::resting), unfolding(crate::specs::Steps::fitted, crate::specs::Steps::rest_rule, crate::specs::Steps::in_order, crate::specs::Steps::halved_of, integers::specs::Bound::total_of))]
fn rest_of_two(x: u32, y: u32, a: i64, b: i64) -> Rule
    ensures { result ≡ fitted (rest_rule (With x) (With y) (a +ℤ b)) }
{
    if y == literal::negate(x) {
        return Rule::Nothing {
            bound: integers::saturating_add(a, b),
        };
    }
    if x == y {
        return Rule::One {
            literal: x,
            bound: integers::midpoint(a, b),
        };
    }
    match integers::add(a, b) {
        Some(bound) => Rule::Two {
            first: x.min(y),
            second: x.max(y),
            bound,
        },
        None => Rule::trivial(),
    }
}

// The rule of what two terms leave; the trivial one where either has nothing to take.
#[tactic(auto, unfolding(integers::specs::Bound::saturated, crate::specs::Steps::fitted, crate::specs::Steps::rest_rule))]
fn rest(mine: Partner, theirs: Partner, a: i64, b: i64) -> Rule
    ensures { result ≡ fitted (rest_rule mine theirs (a +ℤ b)) }
{
    match (mine, theirs) {
        (Partner::With(x), Partner::With(y)) => rest_of_two(x, y, a, b),
        (Partner::With(x), Partner::Alone) | (Partner::Alone, Partner::With(x)) => {
            rest_of_one(x, a, b)
        }
        (Partner::Alone, Partner::Alone) => Rule::Nothing {
            bound: integers::saturating_add(a, b),
        },
        (Partner::Absent, _) | (_, Partner::Absent) => Rule::trivial(),
    }
}

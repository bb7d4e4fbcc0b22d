// The bounds that a step reads of one literal, and of both literals of a quantity.
ghost use Rattle.std.specs.Prelude.{◌≡◌, ◌+◌, ◌*◌, ◌<◌, length};
ghost use Rattle.words.specs.Change.{word_at};
ghost use Rattle.elimination.specs.Inner.{both_held, neither_held, all_held, none_held, bounds_at};

use rules::sheet::Sheet;

// The bounds of a literal with the quantity that is paired: of its term with that one and +, and with it and -. Those of the quantity alone are two such bounds too.
#[derive(Clone, Copy, PartialEq, Eq, Debug)]
pub(crate) struct Bounds {
    pub plus: i64,
    pub minus: i64,
}

// Those of a quantity's literal with +, and of the one with -.
#[derive(Clone, Copy, PartialEq, Eq, Debug)]
pub(crate) struct QuantityBounds {
    pub literal: Bounds,
    pub negated: Bounds,
}

impl Bounds {
    // Whether both are rules.
    pub(crate) fn are_both(self) -> bool
        ensures { result ≡ both_held self }
    {
        self.plus < Sheet::NO_RULE && self.minus < Sheet::NO_RULE
    }

    // Whether neither is a rule.
    pub(crate) fn are_neither(self) -> bool
        ensures { result ≡ neither_held self }
    {
        !(self.plus < Sheet::NO_RULE || self.minus < Sheet::NO_RULE)
    }
}

impl QuantityBounds {
    // The bounds of quantity `a + 1` in the rows with + and with - of the quantity that is paired.
    pub(crate) fn of(plus: &[i64], minus: &[i64], a: usize) -> QuantityBounds
        requires { (2 * a + 1 < length plus.now) × (2 * a + 1 < length minus.now) }
        ensures { result ≡ bounds_at (word_at plus.now) (word_at minus.now) a }
    {
        let x = 2 * a;
        QuantityBounds {
            literal: Bounds {
                plus: plus[x],
                minus: minus[x],
            },
            negated: Bounds {
                plus: plus[x + 1],
                minus: minus[x + 1],
            },
        }
    }

    // Whether all four are rules.
    pub(crate) fn are_all(self) -> bool
        ensures { result ≡ all_held self }
    {
        self.literal.are_both() && self.negated.are_both()
    }

    // Whether none of the four is a rule.
    pub(crate) fn are_none(self) -> bool
        ensures { result ≡ none_held self }
    {
        self.literal.are_neither() && self.negated.are_neither()
    }
}

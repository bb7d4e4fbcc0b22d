// The sheet type and its limits, each spelled here and in specs/Limits.antt, tied by `constants`.
ghost use Rattle.std.specs.Prelude.{◌≡◌, pos};
ghost use Rattle.rules.specs.Limits.{max_quantities, max_bound, max_rules, no_rule, max_text};

use crate::hidden::Set;

// The sheet type, whose associated constants are the limits.
// Kept: the C interface: calls are lent the two parts as numbers, as document 01 has them, and hand them on so.
#[derive(Clone, Copy, PartialEq, Eq, Debug)]
pub struct Sheet {
    pub quantities: usize,
    pub hidden: Set,
}

impl Sheet {
    pub const MAX_QUANTITIES: usize = 32;

    pub const MAX_BOUND: i64 = 1_000_000_000;

    pub const MAX_RULES: usize = 2048;

    // Kept: a word that means no rule, where an Option would do: the C interface: tables are lent as words, and `has_rule`, `table_of` and the other definitions of a table speak of it.
    pub const NO_RULE: i64 = 9_223_372_036_854_775_807;

    pub const MAX_TEXT: usize = 65536;
}

// The constants as values.
#[derive(Clone, Copy, PartialEq, Eq, Debug)]
pub struct Limits {
    pub quantities: usize,
    pub bound: i64,
    pub rules: usize,
    pub no_rule: i64,
    pub text: usize,
}

// The sheet's constants are the numbers of specs/Limits.antt.
// A reader finds here each limit proved to be the document's.
pub fn constants() -> Limits
    ensures quantities { result.quantities ≡ max_quantities }
    ensures bound { result.bound ≡ pos max_bound }
    ensures rules { result.rules ≡ max_rules }
    ensures no_rule { result.no_rule ≡ no_rule }
    ensures text { result.text ≡ max_text }
{
    Limits {
        quantities: Sheet::MAX_QUANTITIES,
        bound: Sheet::MAX_BOUND,
        rules: Sheet::MAX_RULES,
        no_rule: Sheet::NO_RULE,
        text: Sheet::MAX_TEXT,
    }
}

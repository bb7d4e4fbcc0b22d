// How many bytes the parts of what is printed have at most.
use rules::sheet::Sheet;

// The lines of a text before its rules.
pub(crate) const HEADER: usize = 119;

// The line of a rule.
pub(crate) const RULE_LINE: usize = 33;

// The line of a verdict's name.
pub(crate) const VERDICT_LINE: usize = 14;

// The line of an assignment: its key and its end, and a comma and a numeral for each quantity.
pub(crate) const VALUES_LINE: usize = 8 + 21 * Sheet::MAX_QUANTITIES;

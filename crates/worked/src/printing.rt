// How this program spells literals, terms and rules: as document 01 does. No contract can say what is written, so these are proved safe and ending, and what they
// print is compared.
use rules::literal;
use rules::rule::Rule;
use std::fmt;

// A literal, as +1 or -3.
#[derive(Clone, Copy)]
pub(crate) struct Literal(pub u32);

impl fmt::Display for Literal {
    fn fmt<W: fmt::Write>(&self, f: &mut fmt::Formatter<W>) -> fmt::Result {
        let sign = if self.0 % 2 == 0 { '+' } else { '-' };
        let quantity = literal::quantity(self.0);
        write!(f, "{sign}{quantity}")
    }
}

// The term of a rule, its literals in the rule's order; a bare rule has none.
#[derive(Clone, Copy)]
pub(crate) struct Term(pub Rule);

impl fmt::Display for Term {
    fn fmt<W: fmt::Write>(&self, f: &mut fmt::Formatter<W>) -> fmt::Result {
        match self.0 {
            Rule::One { literal, bound: _ } => write!(f, "{}", Literal(literal)),
            Rule::Two {
                first,
                second,
                bound: _,
            } => write!(f, "{}{}", Literal(first), Literal(second)),
            Rule::Nothing { bound: _ } => Ok(()),
        }
    }
}

// A rule, as +1-5:7.
#[derive(Clone, Copy)]
pub(crate) struct Spelled(pub Rule);

impl fmt::Display for Spelled {
    fn fmt<W: fmt::Write>(&self, f: &mut fmt::Formatter<W>) -> fmt::Result {
        let term = Term(self.0);
        let bound = self.0.bound();
        write!(f, "{term}:{bound}")
    }
}

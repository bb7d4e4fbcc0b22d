// Verdicts, and the reply of marking two tables. Document 01's numbers and values of each are in specs/Verdicts.antt.
ghost use Rattle.std.specs.Prelude.{◌≡◌};
ghost use Rattle.marking.specs.Verdicts.{verdict_number, marking_number};

use rules::refusal::Refusal;
use rules::rule::Rule;

#[derive(Clone, Copy, PartialEq, Eq, Debug)]
pub enum Verdict {
    // 100: script and sheet allow the same
    Equal,
    // 101: the script allows some that the sheet does not, with a rule of the key; the trivial rule where the sheet allows nothing
    Loose(Rule),
    // 102: the script allows none that the sheet does not, and forbids some that it allows, with a rule of the script
    Tight(Rule),
}

impl Verdict {
    // Document 01's number of a verdict.
    pub fn number(self) -> u32
        ensures { result ≡ verdict_number self }
    {
        match self {
            Verdict::Equal => 100,
            Verdict::Loose(_) => 101,
            Verdict::Tight(_) => 102,
        }
    }
}

// The reply of marking: a verdict, or the first need that is not met.
pub type Marking = Result<Verdict, Refusal>;

// Document 01's number of a verdict or a refusal. What is returned beside is `rules::refusal::value_of`.
// Kept: beside `rules::refusal::number_of`: the number is a verdict's where there is one, and a trait for what is no refusal would be no plainer.
pub fn marking_number(marking: &Marking) -> u32
    ensures { result ≡ marking_number marking.now }
{
    match marking {
        Ok(verdict) => verdict.number(),
        Err(refusal) => refusal.number(),
    }
}

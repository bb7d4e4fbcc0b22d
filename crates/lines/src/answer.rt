// A line's answer: what it writes with the cursor of the next line, or its refusal.
ghost use Rattle.std.specs.Prelude.{◌≡◌};
ghost use Rattle.lines.specs.Inner.{well_formed};

use numerals::read::Found;
use rules::refusal::Refusal;

// Document 01's number and values of each case are those of `answer_returned` in specs/Answers.
pub type Line<T> = Result<Found<T>, Refusal>;

// What was read, or the refusal of a line that is malformed where nothing of its form was there.
pub(crate) fn well_formed<T>(form: Option<T>, line: usize) -> Result<T, Refusal>
    ensures { result ≡ well_formed line form }
{
    form.ok_or(Refusal::Malformed { line })
}

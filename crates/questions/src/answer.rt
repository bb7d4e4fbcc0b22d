// The answer to one question.
ghost use Rattle.questions.specs.Promises.{Answers};

use rules::rule::Rule;
use rules::sheet::Sheet;

// Whether the question follows from one word of a tight table, that of the question's term: a bound that is no larger. A doubled term's word is that of the term taken once, so the question's
// bound is halved; the no-rule word means that the term has no bound, and no question follows.
pub fn answer(word: i64, question: Rule) -> bool
    ensures { Answers word question result }
{
    word < Sheet::NO_RULE && word <= question.halved().bound()
}

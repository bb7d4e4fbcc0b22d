// A list of questions, three words each: first and second signed quantity, 0 for no second, and bound. Words past the last whole question are not looked at.
ghost use Rattle.std.specs.Prelude.{◌≡◌, ◌≤◌, length};
ghost use Rattle.rules.specs.Limits.{max_quantities};
ghost use Rattle.questions.specs.Questions.{question_count, answer_at, yes_up_to};
ghost use Rattle.questions.specs.Inner.{QuestionGiven, list_checks, Answerable, AllAnswerable};

use crate::answer;
use rules::refusal::Refusal;
use tables::given::{Given, Misstated};
use tables::reply::Reply;
use tables::{given, place};

// The words of a question.
const WORDS: usize = 3;

// The questions that a list of so many words has.
pub(crate) fn count(words: usize) -> usize
    ensures { result ≡ question_count words }
{
    words / WORDS
}

// A question as a rule on a sheet over `n` quantities.
fn rule_of(n: usize, question: &[i64]) -> Given
    requires { (n ≤ max_quantities) × (3 ≤ length question.now) }
    ensures { QuestionGiven n question.now 0 result }
{
    given::of_numbers(n, question[0], question[1], question[2])
}

// The questions: 3 where one is outside the limits of a sheet's rule, then 4 where one is +q-q, each over all of them.
pub(crate) fn check(n: usize, questions: &[i64]) -> Reply
    requires { n ≤ max_quantities }
    ensures { result ≡ list_checks n questions.now (question_count (length questions.now)) }
{
    // Kept: a flag, not `?` on each question: what may not change, as 3 in any question comes before 4 in one before it (`list_checks`).
    let mut cancels = false;
    for question in questions.chunks_exact(WORDS) {
        match rule_of(n, question) {
            Err(Misstated::Outside) => return Err(Refusal::OutOfLimit { line: 0 }),
            Err(Misstated::Vanishes) => cancels = true,
            Ok(_) => {}
        }
    }
    if cancels {
        return Err(Refusal::Cancelling { line: 0 });
    }
    Ok(())
}

// The answer to a question by the word of its term in a tight table. Questions that passed the check are rules, and have a place.
fn answer_to(n: usize, tight: &[i64], question: &[i64]) -> bool
    requires { Answerable n tight.now question.now 0 }
    ensures { result ≡ answer_at tight.now question.now 0 }
{
    let Ok(rule) = rule_of(n, question) else {
        return false;
    };
    let Some(k) = place::place_of(rule.halved()) else {
        return false;
    };
    answer::answer(tight[k], rule)
}

// The answers to the questions as a number: bit i is that to question i + 1.
pub(crate) fn answer_all(n: usize, tight: &[i64], questions: &[i64]) -> u64
    requires { AllAnswerable n tight.now questions.now (question_count (length questions.now)) }
    ensures { result ≡ yes_up_to tight.now questions.now (question_count (length questions.now)) }
{
    let mut bits = 0;
    for (i, question) in questions.chunks_exact(WORDS).enumerate() {
        if answer_to(n, tight, question) {
            bits += 1 << i;
        }
    }
    bits
}

// The reply to a list of questions. Its numbers and values are in specs/Replies.antt; those of a refusal are given by `rules::refusal`.
use rules::refusal::Refusal;

// The answers to so many questions: bit i of `bits`, counted from 0, is that to question i + 1, and the other bits are 0.
// Kept: the C interface: a host gets the answers as this one number.
#[derive(Clone, Copy, PartialEq, Eq, Debug)]
pub struct Answers {
    pub count: usize,
    pub bits: u64,
}

// Answers, or the first need that is not met.
pub type Asked = Result<Answers, Refusal>;

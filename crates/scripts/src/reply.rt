// The reply of marking two texts: a verdict, or a refusal with the paper that it is about. Document 01's numbers and values are in specs/Replies.antt.
ghost use Rattle.std.specs.Prelude.{◌≡◌};
ghost use Rattle.scripts.specs.Replies.{about, text_number, text_value, paper_number, text_paper};

use marking::verdict::Verdict;
use rules::refusal::Refusal;

// Which paper a refusal is about.
#[derive(Clone, Copy, PartialEq, Eq, Debug)]
pub enum Subject {
    Sheet,
    Script,
    // what is lent, or that the two do not fit each other
    Both,
}

// The number of a paper for hosts.
impl From<Subject> for u32 {
    ghost from_gives = { λ p k. k ≡ paper_number p };

    fn from(paper: Subject) -> u32 {
        match paper {
            Subject::Sheet => 1,
            Subject::Script => 2,
            Subject::Both => 3,
        }
    }
}

// What hosts are told for the paper of a verdict.
const NO_PAPER: u32 = 0;

// A verdict, and the sheet's n, which says how many words the assignment has.
#[derive(Clone, Copy, PartialEq, Eq, Debug)]
pub struct Marked {
    pub quantities: usize,
    pub verdict: Verdict,
}

// A refusal, and the paper that it is about.
#[derive(Clone, Copy, PartialEq, Eq, Debug)]
pub struct PaperRefusal {
    pub paper: Subject,
    pub refusal: Refusal,
}

// An answer about a paper: its refusal with the paper's name.
pub(crate) fn about<T>(paper: Subject, answer: Result<T, Refusal>) -> Result<T, PaperRefusal>
    ensures { result ≡ about paper answer }
{
    answer.map_err(|refusal| PaperRefusal { paper, refusal })
}

pub type TextMarking = Result<Marked, PaperRefusal>;

// Document 01's number of a verdict or a refusal.
// Kept: beside `rules::refusal::number_of`: the number is a verdict's where there is one, and a trait for what is no refusal would be no plainer.
pub fn number(marking: &TextMarking) -> u32
    ensures { result ≡ text_number marking.now }
{
    match marking {
        Ok(marked) => marked.verdict.number(),
        Err(refused) => refused.refusal.number(),
    }
}

// The paper that a refusal is about, 1 for the sheet, 2 for the script, 3 for both; 0 with a verdict.
pub fn paper(marking: &TextMarking) -> u32
    ensures { result ≡ text_paper marking.now }
{
    match marking {
        Ok(_) => NO_PAPER,
        Err(refused) => refused.paper.into(),
    }
}

// What is returned beside a refusal's number, a line or the length needed; 0 where there is nothing.
pub fn value(marking: &TextMarking) -> usize
    ensures { result ≡ text_value marking.now }
{
    match marking {
        Ok(_) => 0,
        Err(refused) => refused.refusal.value(),
    }
}

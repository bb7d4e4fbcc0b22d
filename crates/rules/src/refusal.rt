// The refusals of documents 01 and 02. Their numbers, and what is returned beside them, are in specs/Refusal.antt.
ghost use Rattle.std.specs.Prelude.{◌≡◌};
ghost use Rattle.rules.specs.Refusal.{refusal_number, refusal_value, refusal_line, answer_number, answer_value};

// Kept: line 0 for a refusal outside texts, and 0 for what is not there beside a number: the C interface, and what may not change: `refusal_line`, `refusal_value` and the calls' needs, as `OutOfLimit 0`.
#[derive(Clone, Copy, PartialEq, Eq, Debug)]
pub enum Refusal {
    // 1: n, a table's length or a text's size
    Size,
    // 2: a malformed or missing line
    Malformed { line: usize },
    // 3: a number outside its limit; line 0 outside texts
    OutOfLimit { line: usize },
    // 4: a rule +q-q or -q+q; line 0 outside texts
    Cancelling { line: usize },
    // 5: no integers satisfy
    NoAssignment,
    // 6: something lent is too short
    TooShort { needed: usize },
    // 7: the script does not fit the sheet
    Mismatch,
    // 8: a list of questions that is empty, or longer than 64
    ListSize,
    // 9: a rule that a bank sheet may not have there
    NotCanonical { line: usize },
}

impl Refusal {
    // Kept: methods by name, here and of a verdict, no `From`: a number says less than a refusal or a verdict, whose lines, lengths and rules it leaves out.
    // The number.
    pub fn number(self) -> u32
        ensures { result ≡ refusal_number self }
    {
        match self {
            Refusal::Size => 1,
            Refusal::Malformed { .. } => 2,
            Refusal::OutOfLimit { .. } => 3,
            Refusal::Cancelling { .. } => 4,
            Refusal::NoAssignment => 5,
            Refusal::TooShort { .. } => 6,
            Refusal::Mismatch => 7,
            Refusal::ListSize => 8,
            Refusal::NotCanonical { .. } => 9,
        }
    }

    // What is returned beside the number, a line or the length needed; 0 where there is nothing.
    pub fn value(self) -> usize
        ensures { result ≡ refusal_value self }
    {
        match self {
            Refusal::TooShort { needed } => needed,
            about => about.line(),
        }
    }

    // The line that the refusal is about; 0 where it is about none.
    pub fn line(self) -> usize
        ensures { result ≡ refusal_line self }
    {
        match self {
            Refusal::Malformed { line }
            | Refusal::OutOfLimit { line }
            | Refusal::Cancelling { line }
            | Refusal::NotCanonical { line } => line,
            Refusal::Size
            | Refusal::NoAssignment
            | Refusal::TooShort { .. }
            | Refusal::Mismatch
            | Refusal::ListSize => 0,
        }
    }
}

// The number of an answer that may be a refusal; 0 where it is none.
pub fn number_of<T>(answer: &Result<T, Refusal>) -> u32
    ensures { result ≡ answer_number answer.now }
{
    match answer {
        Ok(_) => 0,
        Err(refusal) => refusal.number(),
    }
}

// What is returned beside that number, a line or the length needed; 0 where there is nothing.
pub fn value_of<T>(answer: &Result<T, Refusal>) -> usize
    ensures { result ≡ answer_value answer.now }
{
    match answer {
        Ok(_) => 0,
        Err(refusal) => refusal.value(),
    }
}

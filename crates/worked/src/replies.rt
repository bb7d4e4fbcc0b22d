// What this program prints of a marking: its number, what is returned beside it, and the words of the assignment.
use marking::verdict;
use marking::verdict::Marking;
use rules::refusal;
use scripts::reply;
use scripts::reply::{PaperRefusal, Subject, TextMarking};

// The number of a reply and what is returned beside it.
fn print_number(rt: &impl Print, number: u32, value: usize) {
    let _ = println!(rt; "reply={number} value={value}");
}

// The reply of marking two tables.
pub(crate) fn print_marking(rt: &impl Print, marking: &Marking) {
    print_number(
        rt,
        verdict::marking_number(marking),
        refusal::value_of(marking),
    );
}

// The paper that a refusal of a text is about.
fn print_paper(rt: &impl Print, paper: Subject) {
    let name = match paper {
        Subject::Sheet => "sheet",
        Subject::Script => "script",
        Subject::Both => "both",
    };
    let _ = println!(rt; "paper={name}");
}

// The reply of marking two texts, with the paper that a refusal is about.
pub(crate) fn print_text_marking(rt: &impl Print, marking: &TextMarking) {
    print_number(rt, reply::number(marking), reply::value(marking));
    if let Err(PaperRefusal { paper, refusal: _ }) = *marking {
        print_paper(rt, paper);
    }
}

// The words of an assignment, joined by commas.
pub(crate) fn print_values(rt: &impl Print, values: &[i64]) {
    let _ = print!(rt; "values=");
    for (k, value) in values.iter().enumerate() {
        let comma = if 0 < k { "," } else { "" };
        let _ = print!(rt; "{comma}{value}");
    }
    let _ = println!(rt; "");
}

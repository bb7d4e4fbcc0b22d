// Prints the numbering of terms for three quantities, from place to term and back.
use crate::printing::Term;
use tables::place;

// The term of a place, and the place of that term.
fn print_place(rt: &impl Print, k: u32) {
    let rule = place::rule_at(k, 0);
    let term = Term(rule);
    let _ = match place::place_of(rule) {
        Some(back) => println!(rt; "{k} {term} {back}"),
        None => println!(rt; "{k} {term}"),
    };
}

// Every place.
pub(crate) fn run(rt: &impl Print) {
    let _ = println!(rt; "place term place");
    for k in 0..18 {
        print_place(rt, k);
    }
}

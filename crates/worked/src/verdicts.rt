// Document 01, 'Sheets to try': sheet A's scripts marked as tables, and a sheet that allows nothing. Which integers show a verdict is left free, so they are
// not printed: they are held against the rules that they are to meet and the one that they are to break.
use crate::sheet::Example;
use crate::{meets, replies, scope, sheet};
use marking::mark;
use marking::verdict::{Marking, Verdict};
use rules::rule::Rule;

// Sheet A hides quantity 2.
const HIDDEN: u32 = 0b10;

// Sheet A and its key as tables, and every script.
pub(crate) fn run(rt: &impl Print) {
    let mut paper = Example::begin(rt, "document 01, sheet A marked: 2 hidden", 3);
    scope::rules_of_a(rt, &mut paper);
    let mut key = Example::begin(rt, "its key", 3);
    scope::rules_of_a(rt, &mut key);
    key.key(rt, HIDDEN);
    equal(rt, &paper, &key);
    loose(rt, &paper, &key);
    tight(rt, &paper, &key);
    loose_and_narrow(rt, &paper, &key);
    no_rule(rt);
}

// The key's rules, one of them doubled.
fn equal(rt: &impl Print, paper: &Example, key: &Example) {
    let mut script = Example::begin(rt, "an equal script", 3);
    script.put(rt, 1, 1, 7);
    script.put(rt, 1, 3, 5);
    mark(rt, paper, key, &script);
}

// A rule is forgotten.
fn loose(rt: &impl Print, paper: &Example, key: &Example) {
    let mut script = Example::begin(rt, "a loose script", 3);
    script.put(rt, 1, 0, 3);
    mark(rt, paper, key, &script);
}

// A bound is too small.
fn tight(rt: &impl Print, paper: &Example, key: &Example) {
    let mut script = Example::begin(rt, "a tight script", 3);
    script.put(rt, 1, 0, 2);
    script.put(rt, 1, 3, 5);
    mark(rt, paper, key, &script);
}

// Both, which is loose.
fn loose_and_narrow(rt: &impl Print, paper: &Example, key: &Example) {
    let mut script = Example::begin(rt, "a script too wide and too narrow", 3);
    script.put(rt, 1, 0, 2);
    mark(rt, paper, key, &script);
}

// A script without rules for a sheet that allows nothing: loose, with no rule.
fn no_rule(rt: &impl Print) {
    let mut paper = Example::begin(rt, "a sheet that allows nothing", 3);
    paper.put(rt, 1, 0, 0);
    paper.put(rt, -1, 0, -1);
    let script = Example::begin(rt, "a script without rules", 3);
    let mut values = [7; 3];
    if let Ok(verdict) = marked(rt, &paper, &script, &mut values) {
        print_carried(rt, verdict);
        print_hidden(rt, &values);
    }
}

// Marks a script against a sheet and prints the reply.
fn marked(rt: &impl Print, paper: &Example, script: &Example, values: &mut [i64]) -> Marking {
    let mut workspace = [0; 36];
    let marking = mark::mark(
        3,
        HIDDEN,
        &paper.table,
        &script.table,
        &mut workspace,
        values,
    );
    replies::print_marking(rt, &marking);
    marking
}

// Marks a script against sheet A, prints the reply and the rule that a verdict carries, and checks the integers that it comes with.
fn mark(rt: &impl Print, paper: &Example, key: &Example, script: &Example) {
    let mut values = [7; 3];
    if let Ok(verdict) = marked(rt, paper, script, &mut values) {
        print_carried(rt, verdict);
        check(rt, verdict, paper, key, script, &values);
    }
}

// Equal leaves the assignment as it was. For loose the integers meet the script's rules and break the one of the key that is carried, the hidden word being
// 0; for tight they meet the sheet's and break the one of the script.
fn check(
    rt: &impl Print,
    verdict: Verdict,
    paper: &Example,
    key: &Example,
    script: &Example,
    values: &[i64],
) {
    match verdict {
        Verdict::Equal => replies::print_values(rt, values),
        Verdict::Loose(_) => {
            sheet::head(rt, "its integers on the script, then on the key");
            meets::print_broken(rt, script, values);
            meets::print_broken(rt, key, values);
            print_hidden(rt, values);
        }
        Verdict::Tight(_) => {
            sheet::head(rt, "its integers on the sheet, then on the script");
            meets::print_broken(rt, paper, values);
            meets::print_broken(rt, script, values);
        }
    }
}

// The rule that a verdict carries, an empty value for none; equal carries no rule.
fn print_carried(rt: &impl Print, verdict: Verdict) {
    match verdict {
        Verdict::Equal => {}
        Verdict::Loose(Rule::Nothing { bound: _ }) | Verdict::Tight(Rule::Nothing { bound: _ }) => {
            sheet::head(rt, "rule=")
        }
        Verdict::Loose(rule) | Verdict::Tight(rule) => sheet::print_rule(rt, "rule=", rule),
    }
}

// The word of quantity 2, the hidden one.
fn print_hidden(rt: &impl Print, values: &[i64]) {
    if let Some(word) = values.get(1) {
        let _ = println!(rt; "hidden word={word}");
    }
}

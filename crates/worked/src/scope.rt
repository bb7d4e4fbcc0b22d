// Document 01, 'Sheets to try': the cases of keys that are not about limits.
use crate::sheet::Example;
use crate::{meets, sheet};

// Every case, each in a table of its own.
pub(crate) fn run(rt: &impl Print) {
    sheet_a(rt);
    doubled_below(rt);
    one_half(rt);
    seen_late(rt);
    unpaired(rt);
    largest(rt);
    no_rules(rt);
}

// The rules of sheet A.
pub(crate) fn rules_of_a(rt: &impl Print, example: &mut Example) {
    example.put(rt, 1, 2, 5);
    example.put(rt, 1, -2, 2);
    example.put(rt, 3, -2, 0);
}

// Sheet A: an assignment, the one that document 01 gives, the key, and integers that break the key.
fn sheet_a(rt: &impl Print) {
    let mut example = Example::begin(rt, "document 01, sheet A: 2 hidden", 3);
    rules_of_a(rt, &mut example);
    sheet::head(rt, "an assignment of the sheet");
    meets::assignment(rt, &example);
    sheet::head(rt, "3, 1, 0 on the sheet");
    meets::print_broken(rt, &example, &[3, 1, 0]);
    sheet::head(rt, "the key");
    example.key(rt, 0b10);
    sheet::head(rt, "0, 0, 6 on the key");
    meets::print_broken(rt, &example, &[0, 0, 6]);
}

// A doubled term is halved toward minus infinity.
fn doubled_below(rt: &impl Print) {
    let mut example = Example::begin(rt, "document 01, a doubled term below 0", 1);
    example.put(rt, 1, 1, -1);
    example.key(rt, 0);
}

// Two doubled terms with one half between them.
fn one_half(rt: &impl Print) {
    let mut example = Example::begin(rt, "document 01, one half fits, no integer does", 1);
    example.put(rt, 1, 1, 1);
    example.put(rt, -1, -1, -1);
    example.key(rt, 0);
}

// A contradiction that no hidden quantity shows alone.
fn seen_late(rt: &impl Print) {
    let mut example = Example::begin(
        rt,
        "document 01, seen only after both quantities go: 1 hidden",
        2,
    );
    example.put(rt, 1, 2, 1);
    example.put(rt, -1, -2, -1);
    example.put(rt, 1, -2, 0);
    example.put(rt, -1, 2, 0);
    example.key(rt, 0b1);
}

// A hidden quantity's rule that has no other to be added to is gone.
fn unpaired(rt: &impl Print) {
    let mut example = Example::begin(rt, "document 01, nothing to pair with: 2 hidden", 2);
    example.put(rt, 1, 2, 0);
    example.key(rt, 0b10);
}

// The largest bounds of a sheet, added.
fn largest(rt: &impl Print) {
    let mut example = Example::begin(
        rt,
        "document 01, a key's bound past the sheet's limit: 2 hidden",
        3,
    );
    example.put(rt, 1, -2, 1_000_000_000);
    example.put(rt, 2, -3, 1_000_000_000);
    example.key(rt, 0b10);
}

// No rules, and no quantity visible.
fn no_rules(rt: &impl Print) {
    let mut example = Example::begin(rt, "document 01, no rules: 1 hidden", 1);
    example.key(rt, 0b1);
}

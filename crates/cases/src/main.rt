// Document 01's limit cases, the refusals of texts, and what keys are written as, through what *key* prints: the name of a case, then what is printed
// for its text. The stored output is written by hand from document 01, and its keys from document 02's [2].
#![tactic(auto)]

use reports::key;

// Prints the name of a case and what *key* prints for its text. A write that fails is passed over: what is missing shows where the output is compared.
fn show(rt: &impl Print, name: &str, text: &[u8]) {
    let mut out = [0; key::ROOM];
    let end = key::print_key(text, &mut out);
    let _ = println!(rt; "{name}");
    let _ = rt.write_all(&out[..end]);
}

// Prints the name of a case and what *key* prints for its own output on the text.
fn show_again(rt: &impl Print, name: &str, text: &[u8]) {
    let mut out = [0; key::ROOM];
    let end = key::print_key(text, &mut out);
    show(rt, name, &out[..end]);
}

// Counts and bounds at their limits and past them.
fn limits(rt: &impl Print) {
    show(rt, "n 32", b"quantities=32\nhidden=\nrules=0\n");
    show(rt, "n 33", b"quantities=33\nhidden=\nrules=0\n");
    show(rt, "n 0", b"quantities=0\nhidden=\nrules=0\n");
    show(
        rt,
        "bound 1000000000",
        b"quantities=1\nhidden=\nrules=1\nrule=+1:1000000000\n",
    );
    show(
        rt,
        "bound 1000000001",
        b"quantities=1\nhidden=\nrules=1\nrule=+1:1000000001\n",
    );
    show(
        rt,
        "bound -1000000000",
        b"quantities=1\nhidden=\nrules=1\nrule=+1:-1000000000\n",
    );
    show(
        rt,
        "bound -1000000001",
        b"quantities=1\nhidden=\nrules=1\nrule=+1:-1000000001\n",
    );
    show(
        rt,
        "a bound's limit is on the number as written",
        b"quantities=1\nhidden=\nrules=1\nrule=+1+1:2000000000\n",
    );
    show(rt, "2049 rules", b"quantities=1\nhidden=\nrules=2049\n");
}

// Hidden lists: increasing before in range.
fn hidden_lists(rt: &impl Print) {
    show(rt, "hidden 0", b"quantities=2\nhidden=0\nrules=0\n");
    show(
        rt,
        "hidden 1 and a comma",
        b"quantities=2\nhidden=1,\nrules=0\n",
    );
    show(rt, "hidden 1,1", b"quantities=2\nhidden=1,1\nrules=0\n");
    show(rt, "hidden 3 of 2", b"quantities=2\nhidden=3\nrules=0\n");
    show(
        rt,
        "hidden 39,40",
        b"quantities=32\nhidden=39,40\nrules=0\n",
    );
    show(
        rt,
        "hidden 40,39",
        b"quantities=32\nhidden=40,39\nrules=0\n",
    );
    show(
        rt,
        "hidden thirty digits, then 1",
        b"quantities=2\nhidden=999999999999999999999999999999,1\nrules=0\n",
    );
    show(
        rt,
        "hidden 1, then thirty digits",
        b"quantities=2\nhidden=1,999999999999999999999999999999\nrules=0\n",
    );
}

// Numerals of any length, and what is no numeral.
fn numerals(rt: &impl Print) {
    show(
        rt,
        "a bound of thirty digits",
        b"quantities=1\nhidden=\nrules=1\nrule=+1:-123456789012345678901234567890\n",
    );
    show(
        rt,
        "a term of thirty digits",
        b"quantities=1\nhidden=\nrules=1\nrule=-123456789012345678901234567890:5\n",
    );
    show(rt, "a leading zero", b"quantities=01\nhidden=\nrules=0\n");
    show(
        rt,
        "a sign on a count",
        b"quantities=+1\nhidden=\nrules=0\n",
    );
    show(
        rt,
        "a bound -0",
        b"quantities=1\nhidden=\nrules=1\nrule=+1:-0\n",
    );
    show(
        rt,
        "a bound +5",
        b"quantities=1\nhidden=\nrules=1\nrule=+1:+5\n",
    );
}

// Rule lines: 2 before 3 before 4.
fn rule_lines(rt: &impl Print) {
    show(
        rt,
        "quantity 0",
        b"quantities=1\nhidden=\nrules=1\nrule=+1-0:5\n",
    );
    show(
        rt,
        "quantity 3 of 2",
        b"quantities=2\nhidden=\nrules=1\nrule=+1+3:5\n",
    );
    show(
        rt,
        "three terms",
        b"quantities=3\nhidden=\nrules=1\nrule=+1+2+3:5\n",
    );
    show(
        rt,
        "a lone sign",
        b"quantities=1\nhidden=\nrules=1\nrule=+:5\n",
    );
    show(
        rt,
        "no bound",
        b"quantities=1\nhidden=\nrules=1\nrule=+1:\n",
    );
    show(
        rt,
        "2 before 3",
        b"quantities=1\nhidden=\nrules=1\nrule=+2:1000000001 \n",
    );
    show(
        rt,
        "3 before 4",
        b"quantities=2\nhidden=\nrules=1\nrule=+1-1:1000000001\n",
    );
    show(
        rt,
        "4",
        b"quantities=2\nhidden=\nrules=2\nrule=+1-2:1\nrule=-2+2:1\n",
    );
}

// Lines that are missing, that do not end, and that are too many.
fn lines(rt: &impl Print) {
    show(rt, "no bytes", b"");
    show(rt, "no line 2", b"quantities=1\n");
    show(rt, "no line 3", b"quantities=1\nhidden=\n");
    show(rt, "a missing rule", b"quantities=1\nhidden=\nrules=1\n");
    show(
        rt,
        "a line without its end",
        b"quantities=1\nhidden=\nrules=0",
    );
    show(
        rt,
        "a line without its end, its bound outside the limit",
        b"quantities=1\nhidden=\nrules=1\nrule=+1:1000000001",
    );
    show(
        rt,
        "a carriage return before the line's end",
        b"quantities=1\r\nhidden=\nrules=0\n",
    );
    show(
        rt,
        "bytes after the last rule",
        b"quantities=1\nhidden=\nrules=1\nrule=+1:5\n\n",
    );
    show(
        rt,
        "a rule after the last",
        b"quantities=1\nhidden=\nrules=1\nrule=+1:5\nrule=-1:5\n",
    );
}

// Tables as they are written: one bound for each place, the least that follows, in place order.
fn tables(rt: &impl Print) {
    show(
        rt,
        "two rules of one place",
        b"quantities=2\nhidden=\nrules=4\nrule=+1:3\nrule=+1:5\nrule=-2:5\nrule=-2:3\n",
    );
    show(
        rt,
        "terms and rules in another order",
        b"quantities=3\nhidden=\nrules=4\nrule=+3-1:4\nrule=-2+1:3\nrule=-3:2\nrule=+1:1\n",
    );
    show(
        rt,
        "a doubled term",
        b"quantities=1\nhidden=\nrules=1\nrule=+1+1:7\n",
    );
}

// Keys, and keys read again as sheets.
fn keys(rt: &impl Print) {
    let a = b"quantities=3\nhidden=2\nrules=3\nrule=+1+2:5\nrule=+1-2:2\nrule=+3-2:0\n";
    show(rt, "sheet A", a);
    show_again(rt, "sheet A's key", a);
    let large = b"quantities=3\nhidden=2\nrules=2\nrule=+1-2:1000000000\nrule=+2-3:1000000000\n";
    show(rt, "a key's bound past the limit", large);
    show_again(rt, "that key", large);
    show(
        rt,
        "5",
        b"quantities=1\nhidden=1\nrules=2\nrule=+1:0\nrule=-1:-1\n",
    );
}

// Texts of the largest size, and one byte larger.
fn sizes(rt: &impl Print) {
    let largest = [b'='; 65536];
    show(rt, "65536 bytes", &largest);
    let larger = [b'='; 65537];
    show(rt, "65537 bytes", &larger);
}

fn main(rt: HostRuntime) {
    limits(&rt);
    hidden_lists(&rt);
    numerals(&rt);
    rule_lines(&rt);
    lines(&rt);
    tables(&rt);
    keys(&rt);
    sizes(&rt);
}

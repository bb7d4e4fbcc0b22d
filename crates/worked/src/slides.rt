// The slides, document 003. Uninterpreted functions are left out of document 01, and here.
use crate::sheet;
use crate::sheet::Example;

// Every example, each in a table of its own.
pub(crate) fn run(rt: &impl Print) {
    simple_example(rt);
    trace(rt);
    bounds_of_x(rt);
    bounds_of_y(rt);
    bounds_of_e(rt);
    without_e(rt);
}

// The section on UTVPI, 'A Simple Example': x1 to x5 are quantities 1 to 5, and t >= c is put in as -t <= -c.
fn simple_alpha(rt: &impl Print, example: &mut Example) {
    example.put(rt, 2, 1, 3);
    example.put(rt, -1, -3, 1);
    example.put(rt, 3, 4, -6);
    example.put(rt, -5, -4, 1);
}

// Document 000 has it as its second example, with this beta 2, in which x6 is quantity 6.
fn simple_beta(rt: &impl Print, example: &mut Example) {
    example.put(rt, -2, -3, 3);
    example.put(rt, -6, 5, -1);
    example.put(rt, -4, 6, 4);
}

// The key without x1 is the output printed there, and with beta 2 it has no assignment.
fn simple_example(rt: &impl Print) {
    let mut example = Example::begin(rt, "document 003, UTVPI, A Simple Example: x1 hidden", 6);
    simple_alpha(rt, &mut example);
    example.key(rt, 0b1);
    sheet::head(
        rt,
        "beta 2 of document 000, 4.3.1, put into this interpolant",
    );
    simple_beta(rt, &mut example);
    example.key(rt, 0);
}

// The trace of this example, its x_1 to x_5 as quantities 1 to 5. It numbers variables as it meets them: its x_1 is the formula's x2, its x_2 is x1.
// Its last line, x_5 - x_4 <= 1, has lost a sign that the formula and document 000 have.
fn trace(rt: &impl Print) {
    let mut example = Example::begin(
        rt,
        "document 003, the trace of this example: its x_2 hidden",
        5,
    );
    example.put(rt, 2, 1, 3);
    example.put(rt, -3, -2, 1);
    example.put(rt, 4, 3, -6);
    example.put(rt, -5, -4, 1);
    example.key(rt, 0b10);
}

// The section on EUF + UTVPI, 'Simple Example I': x, y and e are quantities 1, 2 and 3. These are the rules of x and y.
fn rules_of_x_and_y(rt: &impl Print, example: &mut Example) {
    example.put(rt, 2, -1, 0);
    example.put(rt, -2, 1, 10);
    example.put(rt, 2, 1, 20);
    example.put(rt, -2, -1, -10);
}

// The normal form's x <= 15 and -x <= -5. The final output has -x <= 5, where the sign is lost.
fn bounds_of_x(rt: &impl Print) {
    let mut example = Example::begin(
        rt,
        "document 003, EUF + UTVPI, Simple Example I, rules of x and y: y hidden",
        2,
    );
    rules_of_x_and_y(rt, &mut example);
    example.key(rt, 0b10);
}

// The normal form's y <= 10 and -y <= 0.
fn bounds_of_y(rt: &impl Print) {
    let mut example = Example::begin(rt, "the same rules: x hidden", 2);
    rules_of_x_and_y(rt, &mut example);
    example.key(rt, 0b1);
}

// The rules of e as well.
fn rules_of_all(rt: &impl Print, example: &mut Example) {
    rules_of_x_and_y(rt, example);
    example.put(rt, -3, 1, 0);
    example.put(rt, 3, -2, 0);
}

// The normal form's e <= 10 and -e <= -5, and the cases from f(5) to f(10).
fn bounds_of_e(rt: &impl Print) {
    let mut example = Example::begin(rt, "with the rules of e: x and y hidden", 3);
    rules_of_all(rt, &mut example);
    example.key(rt, 0b11);
}

// What is left when e is hidden. The two rules of e add up to x - y <= 0; the normal form keeps x - y <= 10, against the document's own rules 5 and 7.
fn without_e(rt: &impl Print) {
    let mut example = Example::begin(rt, "with the rules of e: e hidden", 3);
    rules_of_all(rt, &mut example);
    example.key(rt, 0b100);
}

// The thesis, document 000: x1 to x6 are quantities 1 to 6. Its t >= c is put in as -t <= -c.
use crate::sheet;
use crate::sheet::Example;

// Every example, each in a table of its own.
pub(crate) fn run(rt: &impl Print) {
    first_example(rt);
    lemma_at_five(rt);
    lemma_at_six(rt);
}

// Section 4.3.1, first example: alpha 1. The trace printed there calls x6 x_4, the fourth variable that it meets.
fn first_alpha(rt: &impl Print, example: &mut Example) {
    example.put(rt, -1, 2, 4);
    example.put(rt, 2, 3, -5);
    example.put(rt, -2, -6, -4);
    example.put(rt, -2, -5, 3);
}

// Its beta 1.
fn first_beta(rt: &impl Print, example: &mut Example) {
    example.put(rt, 1, -3, 2);
    example.put(rt, 4, 6, 0);
    example.put(rt, 5, -4, 0);
}

// The key of alpha 1 without x2 is the interpolant printed there, in document 01's order of places. With beta 1 it has no assignment, as an
// interpolant must not; in halves it has one, so the rounding decides.
fn first_example(rt: &impl Print) {
    let mut example = Example::begin(rt, "document 000, 4.3.1, first example: x2 hidden", 6);
    first_alpha(rt, &mut example);
    example.key(rt, 0b10);
    sheet::head(rt, "beta 1 put into this interpolant");
    first_beta(rt, &mut example);
    example.key(rt, 0);
}

// The rules of lemma 4.3.1 that its cases at 5 and at 6 share.
fn chain(rt: &impl Print, example: &mut Example) {
    example.put(rt, 1, 2, 1);
    example.put(rt, 3, -2, 1);
    example.put(rt, 4, -3, 1);
    example.put(rt, 5, -4, 1);
}

// The lemma's proof has 2 x1 <= 5, whose half is 2. The interpolant that is named there, x1 <= 3, follows from it and is not the strongest.
fn lemma_at_five(rt: &impl Print) {
    let mut example = Example::begin(rt, "document 000, lemma 4.3.1 at 5: x2 to x5 hidden", 5);
    chain(rt, &mut example);
    example.put(rt, 1, -5, 1);
    example.key(rt, 0b11110);
    sheet::head(rt, "x1 above the half of 5 rounded up");
    example.put(rt, -1, 0, -4);
    example.key(rt, 0);
}

// For an even number the interpolant that is named there is the key.
fn lemma_at_six(rt: &impl Print) {
    let mut example = Example::begin(rt, "document 000, lemma 4.3.1 at 6: x2 to x6 hidden", 6);
    chain(rt, &mut example);
    example.put(rt, 6, -5, 1);
    example.put(rt, 1, -6, 1);
    example.key(rt, 0b111110);
    sheet::head(rt, "x1 above the half of 6");
    example.put(rt, -1, 0, -4);
    example.key(rt, 0);
}

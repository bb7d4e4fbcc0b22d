// The three lines before the rules.
ghost use Rattle.std.specs.Prelude.{◌≡◌, ◌+◌, ◌≤◌, ◌<◌, length};
ghost use Rattle.numerals.specs.Writing.{Spliced};
ghost use Rattle.rules.specs.Limits.{max_quantities, max_rules};
ghost use Rattle.lines.specs.Spelling.{list_text};
ghost use Rattle.writing.specs.Writing.{hidden_list};
ghost use Rattle.writing.specs.Inner.{member_text, head_text};

use crate::line;
use numerals::write;
use rules::hidden;
use rules::hidden::Set;

// How many bytes quantity `j + 1` takes in the list, where the list of the quantities before it takes so many.
#[tactic(auto, using(crate::proofs::Lines::numeral_short), unfolding(crate::specs::Inner::member_text))]
fn member_width(set: Set, j: usize, before: usize) -> usize
    requires { (j < max_quantities) × (before ≡ length (list_text (hidden_list j set))) }
    ensures { result ≡ length (member_text set j) }
{
    if !hidden::is_hidden(set, j + 1) {
        return 0;
    }
    let digits = write::width((j + 1) as u64);
    if before == 0 {
        return digits;
    }
    // 1 for the comma
    1 + digits
}

// How many bytes the numbers of the set's quantities take, joined by commas.
#[tactic(auto, using(crate::proofs::ListTexts::list_more_length))]
fn list_width(n: usize, set: Set) -> usize
    requires { n ≤ max_quantities }
    ensures { result ≡ length (list_text (hidden_list n set)) }
{
    let mut total = 0;
    for j in 0..n {
        total += member_width(set, j, total);
    }
    total
}

// Writes quantity `j + 1` into a list that starts at `start` and goes to `at`, where the set has it; answers the cursor after it.
#[tactic(auto, unfolding(crate::specs::Inner::member_text))]
fn put_member(out: &mut [u8], start: usize, at: usize, set: Set, j: usize) -> usize
    requires j_lt_max_quantities { (j < max_quantities) × (at ≡ start + length (list_text (hidden_list j set))) }
    requires j_in_bounds { at + length (member_text set j) ≤ length out.old }
    ensures { Spliced out.old at (member_text set j) result out.new }
{
    if !hidden::is_hidden(set, j + 1) {
        return at;
    }
    if at == start {
        return write::put_number(out, at, (j + 1) as u64);
    }
    let next = write::put_byte(out, at, b',');
    write::put_number(out, next, (j + 1) as u64)
}

// Writes the list; answers the cursor after it.
fn put_list(out: &mut [u8], at: usize, n: usize, set: Set) -> usize
    requires { (n ≤ max_quantities) × (at + length (list_text (hidden_list n set)) ≤ length out.old) }
    ensures { Spliced out.old at (list_text (hidden_list n set)) result out.new }
{
    let mut next = at;
    for j in 0..n {
        next = put_member(out, at, next, set, j);
    }
    next
}

// How many bytes the header takes.
#[tactic(auto, using(crate::proofs::Texts::head_length, crate::proofs::Lines::numeral_short, crate::proofs::Lengths::hidden_length))]
pub(crate) fn header_width(n: usize, set: Set, count: usize) -> usize
    requires { (n ≤ max_quantities) × (count ≤ max_rules) }
    ensures { result ≡ length (head_text n set count) }
{
    // 11, 7 and 6 for the keys `quantities=`, `hidden=` and `rules=`, and 3 for the line ends
    27 + write::width(n as u64) + list_width(n, set) + write::width(count as u64)
}

// Writes the header; answers the cursor after it.
#[tactic(auto, using(crate::proofs::Lines::count_length, crate::proofs::Texts::head_length))]
pub(crate) fn put_header(out: &mut [u8], n: usize, set: Set, count: usize) -> usize
    requires { (n ≤ max_quantities) × (length (head_text n set count) ≤ length out.old) }
    ensures { Spliced out.old 0 (head_text n set count) result out.new }
{
    let second = line::put_count(out, 0, b"quantities=", n);
    let list = write::put_text(out, second, b"hidden=");
    let end = put_list(out, list, n, set);
    let third = write::put_byte(out, end, b'\n');
    line::put_count(out, third, b"rules=", count)
}

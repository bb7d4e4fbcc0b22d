// A refusal as the programs print it.
ghost use Rattle.std.specs.Prelude.{◌+◌, ◌≤◌, length};
ghost use Rattle.numerals.specs.Writing.{Spliced};
ghost use Rattle.reports.specs.Refusals.{number_text, where_text, refusal_text};

use rules::refusal::Refusal;
use writing::line;

// Writes the line of a refusal's number at the start of the output; answers its length.
pub(crate) fn put_number(out: &mut [u8], r: Refusal) -> usize
    requires { length (number_text r) ≤ length out.old }
    ensures { Spliced out.old 0 (number_text r) result out.new }
{
    line::put_count(out, 0, b"refused=", r.number() as usize)
}

// Writes the line of the line that a refusal names; answers the cursor after it.
pub(crate) fn put_where(out: &mut [u8], at: usize, r: Refusal) -> usize
    requires { at + length (where_text r) ≤ length out.old }
    ensures { Spliced out.old at (where_text r) result out.new }
{
    line::put_count(out, at, b"line=", r.line())
}

// Writes a refusal at the start of the output; answers its length.
pub(crate) fn put_refusal(out: &mut [u8], r: Refusal) -> usize
    requires { length (refusal_text r) ≤ length out.old }
    ensures { Spliced out.old 0 (refusal_text r) result out.new }
{
    let next = put_number(out, r);
    put_where(out, next, r)
}

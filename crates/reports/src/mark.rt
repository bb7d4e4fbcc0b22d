// What the program *mark* prints for two texts.
ghost use Rattle.std.specs.Prelude.{◌+◌, ◌≤◌, length};
ghost use Rattle.numerals.specs.Writing.{Spliced};
ghost use Rattle.reports.specs.Marks.{paper_key, word_text, integers_text, values_text, shown_text, verdict_text, paper_name, refused_mark_text};
ghost use Rattle.reports.specs.Promises.{MarkPrinted};

use crate::{refusal, room};
use marking::verdict::Verdict;
use numerals::write;
use rules::refusal::Refusal;
use rules::rule::Rule;
use rules::sheet::Sheet;
use scripts::own;
use scripts::reply::{PaperRefusal, Subject};
use writing::line;

// Bytes enough for whatever is printed.
pub const ROOM: usize = room::VERDICT_LINE + room::RULE_LINE + room::VALUES_LINE;

// Kept: the output and a cursor in place of a String or a Display. The fixed-memory rule: the programs make no String; and the clauses promise the bytes that stand in the output.
// A line of a key and a word; answers the cursor after it.
fn put_word(out: &mut [u8], at: usize, key: &[u8], word: &[u8]) -> usize
    requires { at + length (word_text key.now word.now) ≤ length out.old }
    ensures { Spliced out.old at (word_text key.now word.now) result out.new }
{
    let value = write::put_text(out, at, key);
    let end = write::put_text(out, value, word);
    write::put_byte(out, end, b'\n')
}

// Integers joined by commas; answers the cursor after them.
fn put_integers(out: &mut [u8], at: usize, values: &[i64]) -> usize
    requires { at + length (integers_text values.now) ≤ length out.old }
    ensures { Spliced out.old at (integers_text values.now) result out.new }
{
    let Some((first, rest)) = values.split_first() else {
        return at;
    };
    let mut next = write::put_signed(out, at, *first);
    for value in rest {
        next = write::put_byte(out, next, b',');
        next = write::put_signed(out, next, *value);
    }
    next
}

// The line of the integers; answers the cursor after it.
fn put_values(out: &mut [u8], at: usize, values: &[i64]) -> usize
    requires { at + length (values_text values.now) ≤ length out.old }
    ensures { Spliced out.old at (values_text values.now) result out.new }
{
    let first = write::put_text(out, at, b"values=");
    let end = put_integers(out, first, values);
    write::put_byte(out, end, b'\n')
}

// The rule and the assignment of a loose or tight verdict; answers the cursor after them.
fn put_shown(out: &mut [u8], at: usize, rule: Rule, values: &[i64]) -> usize
    requires { at + length (shown_text rule values.now) ≤ length out.old }
    ensures { Spliced out.old at (shown_text rule values.now) result out.new }
{
    let next = line::put_rule(out, at, rule);
    put_values(out, next, values)
}

// The verdict; answers the length of what is written at the start of the output.
fn put_verdict(out: &mut [u8], verdict: Verdict, values: &[i64]) -> usize
    requires { length (verdict_text verdict values.now) ≤ length out.old }
    ensures { Spliced out.old 0 (verdict_text verdict values.now) result out.new }
{
    match verdict {
        Verdict::Equal => put_word(out, 0, b"verdict=", b"equal"),
        Verdict::Loose(rule) => {
            let next = put_word(out, 0, b"verdict=", b"loose");
            put_shown(out, next, rule, values)
        }
        Verdict::Tight(rule) => {
            let next = put_word(out, 0, b"verdict=", b"tight");
            put_shown(out, next, rule, values)
        }
    }
}

// The line that names the paper of a refusal; answers the cursor after it.
fn put_paper(out: &mut [u8], at: usize, paper: Subject) -> usize
    requires { at + length (word_text paper_key (paper_name paper)) ≤ length out.old }
    ensures { Spliced out.old at (word_text paper_key (paper_name paper)) result out.new }
{
    match paper {
        Subject::Sheet => put_word(out, at, b"paper=", b"sheet"),
        Subject::Script => put_word(out, at, b"paper=", b"script"),
        Subject::Both => put_word(out, at, b"paper=", b"both"),
    }
}

// The refusal with its paper; answers the length of what is written at the start of the output.
fn put_refused(out: &mut [u8], paper: Subject, r: Refusal) -> usize
    requires { length (refused_mark_text paper r) ≤ length out.old }
    ensures { Spliced out.old 0 (refused_mark_text paper r) result out.new }
{
    let first = refusal::put_number(out, r);
    let second = put_paper(out, first, paper);
    refusal::put_where(out, second, r)
}

// Writes what *mark* prints for a sheet's text and a script's at the start of the output; answers its length.
pub fn print_mark(sheet: &[u8], script: &[u8], out: &mut [u8; ROOM]) -> usize
    ensures { MarkPrinted sheet.now script.now out.old result out.new }
{
    let mut values = [0; Sheet::MAX_QUANTITIES];
    match own::mark_in_own_room(sheet, script, &mut values) {
        Ok(marked) => put_verdict(out, marked.verdict, &values[..marked.quantities]),
        Err(PaperRefusal { paper, refusal }) => put_refused(out, paper, refusal),
    }
}

// A text checked: its size, then its lines from the first. Each line is read once, and a table that is at hand is filled meanwhile.
// Kept: each line's answer is taken apart by let .. else and its refusal returned, where `?` would do as well: a rule of the project, document 01, 'The form to use in each place' (docs/DECISIONS.md, 'Forms of document 01').
ghost use Rattle.std.specs.Prelude.{◌≡◌, ◌≤◌, ◌<◌};
ghost use Rattle.numerals.specs.Decimal.{cap};
ghost use Rattle.rules.specs.Limits.{max_quantities, max_rules};
ghost use Rattle.reading.specs.Reading.{check_header, header_of};
ghost use Rattle.reading.specs.Promises.{RulesFilled, TextChecked, TextFilled};

use crate::order;
use lines::{count, hidden, rule};
use rules::hidden::Set;
use rules::paper;
use rules::paper::Paper;
use rules::refusal::Refusal;
use rules::sheet::Sheet;
use tables::table;

// What the header of a text that passes writes, and where its rule lines begin.
#[derive(Clone, Copy, PartialEq, Eq, Debug)]
pub struct Passed {
    pub quantities: usize,
    pub hidden: Set,
    // how many rules there are
    pub rules: usize,
    // the cursor at which their lines begin
    pub body: usize,
}

pub type Checked = Result<Passed, Refusal>;

// Checks the rule lines of a text by its header, the first being line 4, and that nothing follows them; where they are to be `ordered`, also that each rule is in place order after the one before.
// The header is handed back. A table that is long enough is filled with the rules meanwhile, and its words are free where a line is refused; a shorter one stays.
// Kept: the flag `ordered`. One loop serves both readings, since a second caller of the line's reader would keep it from being compiled into the loop, which is slower.
pub fn check_rules(
    s: &[u8],
    ordered: bool,
    header: Passed,
    limit: u64,
    table: &mut [i64],
) -> Checked
    requires { (1 ≤ header.quantities) × (header.quantities ≤ max_quantities) × (limit < cap) × (header.rules ≤ max_rules) }
    ensures { RulesFilled ordered header limit s.now table.old result table.new }
{
    let n = header.quantities;
    let fills = table::size(n) <= table.len();
    // neither call on the table refuses: it is long enough, and each rule is in its limits
    if fills {
        let _ = table::empty(n, table);
    }
    let mut at = header.body;
    // the place of the rule before, where they are to be in order and there is one
    let mut last = None;
    for i in 0..header.rules {
        let line = rule::rule_line(s, at, n, limit, i + 4);
        let Ok(got) = line else {
            return Err(line.unwrap_err());
        };
        if ordered {
            let place = order::place_after(last, got.value).ok_or(Refusal::NotCanonical {
                line: i + 4,
            })?;
            last = Some(place);
        }
        if fills {
            let _ = table::put(n, table, got.value);
        }
        at = got.next;
    }
    if at < s.len() {
        return Err(Refusal::Malformed {
            line: header.rules + 4,
        });
    }
    Ok(header)
}

// Checks a text's size and the three lines of its header, whatever follows them; the cursor in the answer is that of the first rule line.
#[tactic(auto, using(crate::proofs::CheckedHeaders::size_header))]
pub fn check_header(s: &[u8]) -> Checked
    ensures { result ≡ header_of s.now (check_header s.now) }
{
    if Sheet::MAX_TEXT < s.len() {
        return Err(Refusal::Size);
    }
    let first = count::count_line(s, 0, b"quantities=", 1, Sheet::MAX_QUANTITIES, 1);
    let Ok(quantities) = first else {
        return Err(first.unwrap_err());
    };
    let second = hidden::hidden_line(s, quantities.next, quantities.value, 2);
    let Ok(hidden) = second else {
        return Err(second.unwrap_err());
    };
    let third = count::count_line(s, hidden.next, b"rules=", 0, Sheet::MAX_RULES, 3);
    let Ok(rules) = third else {
        return Err(third.unwrap_err());
    };
    Ok(Passed {
        quantities: quantities.value,
        hidden: hidden.value,
        rules: rules.value,
        body: rules.next,
    })
}

// Checks a text, taken as a sheet or a script: its size, the three lines of its header, then its rules, whose bounds the header limits. A table that is long enough for its n is filled
// meanwhile, so that each line is read once; its words are free where the text is refused.
pub fn check_filling(s: &[u8], paper: Paper, table: &mut [i64]) -> Checked
    ensures { TextFilled paper s.now table.old result table.new }
{
    let header = check_header(s)?;
    let limit = paper::bound_limit(paper, header.quantities, header.hidden) as u64;
    check_rules(s, false, header, limit, table)
}

// Checks a text and fills no table.
pub fn check(s: &[u8], paper: Paper) -> Checked
    ensures { TextChecked paper s.now result }
{
    let mut none = [0; 0];
    check_filling(s, paper, &mut none)
}

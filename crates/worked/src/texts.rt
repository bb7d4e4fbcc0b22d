// Marking two texts: the refusals of what is lent, 6 with the length that the sheet's n needs, and those of papers that do not fit each other, 7. Neither
// changes the assignment, so its words are printed too.
ghost use Rattle.std.specs.Prelude.{◌≡◌, ◌≤◌};

use crate::{replies, sheet};
use scripts::room::Lengths;
use scripts::texts;

// All of these.
pub(crate) fn run(rt: &impl Print) {
    lent(rt);
    several_short(rt);
    other_papers(rt);
}

// Words enough for sheet A.
const ENOUGH: Lengths = Lengths {
    sheet: 18,
    script: 18,
    workspace: 36,
    values: 3,
};

// Marks a script against sheet A after a heading, lent so many words, and prints the reply.
fn mark_lent(rt: &impl Print, heading: &str, script: &[u8], lent: Lengths)
    requires { (lent.sheet ≤ 18) × (lent.script ≤ 18) × (lent.workspace ≤ 36) × (lent.values ≤ 3) }
{
    sheet::head(rt, heading);
    let text = b"quantities=3\nhidden=2\nrules=3\nrule=+1+2:5\nrule=+1-2:2\nrule=+3-2:0\n";
    let mut sheet_table = [0; 18];
    let mut script_table = [0; 18];
    let mut workspace = [0; 36];
    let mut words = [7; 3];
    let values = &mut words[..lent.values];
    let marking = texts::mark_texts(
        text,
        script,
        &mut sheet_table[..lent.sheet],
        &mut script_table[..lent.script],
        &mut workspace[..lent.workspace],
        values,
    );
    replies::print_text_marking(rt, &marking);
    replies::print_values(rt, values);
}

// 6: each thing lent a word short.
fn lent(rt: &impl Print) {
    let equal = b"quantities=3\nhidden=2\nrules=2\nrule=+1+1:7\nrule=+1+3:5\n";
    let heading = "document 01, sheet A and a script as texts: 18, 18, 36 and 3 words";
    mark_lent(rt, heading, equal, ENOUGH);
    let lent = Lengths {
        sheet: 17,
        ..ENOUGH
    };
    mark_lent(rt, "a sheet's table of 17 words", equal, lent);
    let lent = Lengths {
        script: 17,
        ..ENOUGH
    };
    mark_lent(rt, "a script's table of 17 words", equal, lent);
    let lent = Lengths {
        workspace: 35,
        ..ENOUGH
    };
    mark_lent(rt, "a workspace of 35 words", equal, lent);
    let lent = Lengths {
        values: 2,
        ..ENOUGH
    };
    mark_lent(rt, "an assignment of 2 words", equal, lent);
}

// So many words for the sheet's table, the script's, the workspace and the assignment.
fn lengths(sheet: usize, script: usize, workspace: usize, values: usize) -> Lengths
    ensures { result ≡ record { sheet = sheet; script = script; workspace = workspace; values = values } }
{
    Lengths {
        sheet,
        script,
        workspace,
        values,
    }
}

// 6: the sheet's table before the script's, the workspace, the assignment, and all of them before 7, for the script has another n; but a refusal of its text
// comes first.
fn several_short(rt: &impl Print) {
    let none = lengths(0, 0, 0, 0);
    mark_lent(rt, "an empty script and 0, 0, 0 and 0 words", b"", none);
    let other = b"quantities=2\nhidden=2\nrules=0\n";
    let heading = "a script of 2 quantities and 0, 0, 0 and 0 words";
    mark_lent(rt, heading, other, none);
    let lent = lengths(17, 18, 36, 3);
    mark_lent(rt, "17, 18, 36 and 3 words", other, lent);
    let lent = lengths(18, 17, 35, 2);
    mark_lent(rt, "18, 17, 35 and 2 words", other, lent);
    let lent = lengths(18, 18, 35, 2);
    mark_lent(rt, "18, 18, 35 and 2 words", other, lent);
    let lent = lengths(18, 18, 36, 2);
    mark_lent(rt, "18, 18, 36 and 2 words", other, lent);
    mark_lent(rt, "18, 18, 36 and 3 words", other, ENOUGH);
}

// 7: a larger n, another hidden list, a rule that names a hidden quantity. Lengths go by the sheet's n, so that a script of 4 quantities is not refused with 6.
fn other_papers(rt: &impl Print) {
    let larger = b"quantities=4\nhidden=2\nrules=1\nrule=+3+4:5\n";
    mark_lent(rt, "a script of 4 quantities", larger, ENOUGH);
    let third = b"quantities=3\nhidden=3\nrules=0\n";
    mark_lent(rt, "a script that hides 3", third, ENOUGH);
    let none = b"quantities=3\nhidden=\nrules=0\n";
    mark_lent(rt, "a script that hides none", none, ENOUGH);
    let named = b"quantities=3\nhidden=2\nrules=1\nrule=+1-2:0\n";
    mark_lent(rt, "a script that names 2", named, ENOUGH);
}

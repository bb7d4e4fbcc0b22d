// The library's calls for hosts in C and Rust, as C's linker finds them: each calls the call of its name in `acornsled`, states its clauses again, and adds nothing.
// Kept: numbers for replies, papers and rules, and what is told beside them through `&mut`, for the C interface.
#![tactic(auto)]

ghost use Rattle.acornsled.specs.Promises.{ReadingTold, ReadAnswer, BankAnswer, WriteAnswer, KeyAnswer, TightKeyAnswer, StepAnswer, AssignmentAnswer, AskAnswer, MarkAnswer, MarkTextsAnswer, MarkTablesAnswer};

// Reads a text: where it answers 0, the table's first 2n² words hold its rules, and n and the hidden set are written to `quantities` and `hidden`.
#[unsafe(no_mangle)]
pub extern "C" fn acornsled_read(
    text: &[u8],
    table: &mut [i64],
    quantities: &mut usize,
    hidden: &mut u32,
    value: &mut usize,
) -> u32
    ensures { ReadAnswer text.now table.old quantities.old hidden.old result value.new quantities.new hidden.new table.new }
{
    acornsled::acornsled_read(text, table, quantities, hidden, value)
}

// Reads the text of a bank sheet, as above: its rules are in place order, lower quantity first, each place once and no term doubled, or 9 is answered.
#[unsafe(no_mangle)]
pub extern "C" fn acornsled_bank_read(
    text: &[u8],
    table: &mut [i64],
    quantities: &mut usize,
    hidden: &mut u32,
    value: &mut usize,
) -> u32
    ensures { BankAnswer text.now table.old quantities.old hidden.old result value.new quantities.new hidden.new table.new }
{
    acornsled::acornsled_bank_read(text, table, quantities, hidden, value)
}

// Writes a table and a hidden set as a text: where it answers 0, `value` is the text's length.
#[unsafe(no_mangle)]
pub extern "C" fn acornsled_write(
    n: usize,
    hidden: u32,
    table: &[i64],
    out: &mut [u8],
    value: &mut usize,
) -> u32
    ensures { WriteAnswer n hidden table.now out.old result value.new out.new }
{
    acornsled::acornsled_write(n, hidden, table, out, value)
}

// The key call: where it answers 0, the table's first 2n² words have become the key. The workspace needs as many.
#[unsafe(no_mangle)]
pub extern "C" fn acornsled_key(
    n: usize,
    hidden: u32,
    table: &mut [i64],
    workspace: &mut [i64],
    value: &mut usize,
) -> u32
    ensures { KeyAnswer n hidden table.old workspace.old result value.new table.new workspace.new }
{
    acornsled::acornsled_key(n, hidden, table, workspace, value)
}

// The tight key call: where it answers 0, the table's first 2n² words have become the tightest key. The workspace needs as many.
#[unsafe(no_mangle)]
pub extern "C" fn acornsled_tight_key(
    n: usize,
    hidden: u32,
    table: &mut [i64],
    workspace: &mut [i64],
    value: &mut usize,
) -> u32
    ensures { TightKeyAnswer n hidden table.old workspace.old result value.new table.new workspace.new }
{
    acornsled::acornsled_tight_key(n, hidden, table, workspace, value)
}

// Follows the step that hides `quantity`, those of the set `before` hidden before it: where it answers 0, the table's first 2n² words have become the table with the step's first `blocks`
// blocks done, and, with n + 1 for them, with the quantity's places cleared too. The workspace needs 2n² words.
#[unsafe(no_mangle)]
pub extern "C" fn acornsled_step(
    n: usize,
    before: u32,
    quantity: usize,
    blocks: usize,
    table: &mut [i64],
    workspace: &mut [i64],
    value: &mut usize,
) -> u32
    ensures { StepAnswer n before quantity blocks table.old workspace.old result value.new table.new workspace.new }
{
    acornsled::acornsled_step(n, before, quantity, blocks, table, workspace, value)
}

// The assignment call: where it answers 0, the first `n` words of `values` have become integers that satisfy the table.
#[unsafe(no_mangle)]
pub extern "C" fn acornsled_assignment(
    n: usize,
    table: &[i64],
    workspace: &mut [i64],
    values: &mut [i64],
    value: &mut usize,
) -> u32
    ensures { AssignmentAnswer n table.now workspace.old values.old result value.new workspace.new values.new }
{
    acornsled::acornsled_assignment(n, table, workspace, values, value)
}

// Asks a list of questions of a sheet's table, three words each: first and second signed quantity, 0 for no second, and bound; words past the last whole question are not looked at. Where it
// answers 0, bit i of `answers` is 1 exactly when every assignment of the sheet meets question i + 1, and the other bits are 0; else `answers` stays as it was. The workspace needs 2n² words.
#[unsafe(no_mangle)]
pub extern "C" fn acornsled_ask(
    n: usize,
    table: &[i64],
    questions: &[i64],
    workspace: &mut [i64],
    answers: &mut u64,
    value: &mut usize,
) -> u32
    ensures { AskAnswer n table.now questions.now workspace.old answers.old result value.new workspace.new answers.new }
{
    acornsled::acornsled_ask(n, table, questions, workspace, answers, value)
}

// Marks the text of a script against the text of a sheet: 100 for equal, 101 for loose, 102 for tight, or the refusal's number. The assignment that shows a
// verdict is dropped.
#[unsafe(no_mangle)]
pub extern "C" fn acornsled_mark(sheet: &[u8], script: &[u8]) -> u32
    ensures { MarkAnswer sheet.now script.now result }
{
    acornsled::acornsled_mark(sheet, script)
}

// The same with the reasons. A refusal is told with its paper and its line or length, which are 0 with a verdict; a verdict with the sheet's n; loose and tight
// with the rule, three words that are 0 where there is none, and with the integers that show the verdict, in the first n words of `values`. Else n, rule and
// values stay as they were.
#[unsafe(no_mangle)]
pub extern "C" fn acornsled_mark_texts(
    sheet: &[u8],
    script: &[u8],
    values: &mut [i64],
    quantities: &mut usize,
    rule: &mut [i64; 3],
    paper: &mut u32,
    value: &mut usize,
) -> u32
    ensures { MarkTextsAnswer sheet.now script.now quantities.old rule.old values.old result paper.new value.new quantities.new rule.new values.new }
{
    acornsled::acornsled_mark_texts(sheet, script, values, quantities, rule, paper, value)
}

// Marks the table of a script against the table of a sheet: 100, 101, 102, or the refusal's number. The workspace needs 4n² words and `values` n. Loose and tight
// are told with the rule and the integers that show the verdict, as above; else the rule and `values` stay as they were.
#[unsafe(no_mangle)]
pub extern "C" fn acornsled_mark_tables(
    n: usize,
    hidden: u32,
    sheet: &[i64],
    script: &[i64],
    workspace: &mut [i64],
    values: &mut [i64],
    rule: &mut [i64; 3],
    value: &mut usize,
) -> u32
    ensures { MarkTablesAnswer n hidden sheet.now script.now workspace.old values.old rule.old result value.new workspace.new values.new rule.new }
{
    acornsled::acornsled_mark_tables(n, hidden, sheet, script, workspace, values, rule, value)
}

// What changes a table: emptied, a rule put in, a quantity's places cleared. A refusal changes no word, and no call changes a word past the
// first 2n².
// Kept: a table is a slice with `n` beside it, two parameters and no struct: the C interface lends them so, and no call copies a table (`Emptied`, `Put`, `Cleared` speak of every word lent).
ghost use Rattle.std.specs.Prelude.{◌≡◌, suc, ◌<◌, ◌≤◌};
ghost use Rattle.rules.specs.declared.rule.Rule.TheVariants.{Two};
ghost use Rattle.rules.specs.Limits.{max_quantities};
ghost use Rattle.tables.specs.Tables.{table_size, rule_reply, put_halved, cleared};
ghost use Rattle.tables.specs.Tables.{serves as Tables·serves};
ghost use Rattle.tables.specs.Promises.{Emptied, Put, Cleared};

use crate::place;
use crate::reply::Reply;
use rules::refusal::Refusal;
use rules::rule::Rule;
use rules::sheet::Sheet;

// The words of the largest table.
pub const LARGEST: usize = 2 * Sheet::MAX_QUANTITIES * Sheet::MAX_QUANTITIES;

// The words of a table over `n` quantities; 0 where `n` is outside its range.
// Kept: 0 and no Option: the clause promises `table_size`, which is 0 there, for every `n`.
#[tactic(auto, unfolding(crate::specs::Tables::table_size, places::specs::Numbering::block_start))]
pub fn size(n: usize) -> usize
    ensures { result ≡ table_size n }
{
    if n < 1 || Sheet::MAX_QUANTITIES < n {
        return 0;
    }
    2 * (n * n)
}

// Whether a table of so many words serves `n` quantities: `n` is in its range, and the words are enough.
#[tactic(auto, unfolding(crate::specs::Tables::serves))]
pub fn serves(n: usize, words: usize) -> bool
    ensures { result ≡ Tables·serves n words }
{
    let needed = size(n);
    0 < needed && needed <= words
}

// Takes every rule out of the table.
pub fn empty(n: usize, table: &mut [i64]) -> Reply
    ensures { Emptied n table.old result table.new }
{
    if !serves(n, table.len()) {
        return Err(Refusal::Size);
    }
    words::fill(table, 0, size(n), Sheet::NO_RULE);
    Ok(())
}

// The reply to a rule of two literals for a table over `n` quantities.
#[tactic(auto, unfolding(crate::specs::Tables::rule_reply))]
fn accepts_two(n: usize, first: u32, second: u32, bound: i64) -> Reply
    ensures { result ≡ rule_reply n (Two first second bound) }
{
    if n <= first as usize / 2 || n <= second as usize / 2 || bound == Sheet::NO_RULE {
        return Err(Refusal::OutOfLimit { line: 0 });
    }
    if second == rules::literal::negate(first) {
        return Err(Refusal::Cancelling { line: 0 });
    }
    Ok(())
}

// The reply to a halved rule for a table over `n` quantities.
#[tactic(auto, unfolding(crate::specs::Tables::rule_reply))]
fn accepts(n: usize, rule: Rule) -> Reply
    ensures { result ≡ rule_reply n rule }
{
    match rule {
        Rule::One { literal, bound } => {
            if n <= literal as usize / 2 || bound == Sheet::NO_RULE {
                return Err(Refusal::OutOfLimit { line: 0 });
            }
            Ok(())
        }
        Rule::Two {
            first,
            second,
            bound,
        } => accepts_two(n, first, second, bound),
        Rule::Nothing { bound } => {
            if bound == Sheet::NO_RULE {
                return Err(Refusal::OutOfLimit { line: 0 });
            }
            if bound < 0 {
                return Err(Refusal::NoAssignment);
            }
            Ok(())
        }
    }
}

// Puts a halved rule in at the place of its term, by minimum.
#[tactic(auto, unfolding(crate::specs::Tables::put_halved, crate::specs::Tables::put_at))]
fn store(table: &mut [i64], rule: Rule)
    ensures { table.new ≡ put_halved table.old rule }
{
    if let Some(k) = place::place_of(rule) {
        words::lower(table, k, rule.bound());
    }
}

// Puts a rule in, a doubled term halved first: the smaller bound stays. A rule that the table cannot hold is refused by the number that fits best; any word but the
// no-rule word is a bound here, the limit of a paper being for its reader to test.
pub fn put(n: usize, table: &mut [i64], rule: Rule) -> Reply
    ensures { Put n rule table.old result table.new }
{
    if !serves(n, table.len()) {
        return Err(Refusal::Size);
    }
    let halved = rule.halved();
    accepts(n, halved)?;
    store(table, halved);
    Ok(())
}

// Clears the places that name quantity `j + 1`: all of its own block, and four of each block after it.
fn clear_places(n: usize, table: &mut [i64], j: usize)
    requires { (j < n) × (n ≤ max_quantities) }
    ensures { table.new ≡ cleared n (suc j) table.old }
{
    let start = 2 * (j * j);
    let mut next = start + 4 * j + 2;
    words::fill(table, start, next, Sheet::NO_RULE);
    for b in j + 1..n {
        words::fill(table, next + 4 * j + 2, next + 4 * j + 6, Sheet::NO_RULE);
        next += 4 * b + 2;
    }
}

// Clears every place that names quantity `q`.
pub fn clear(n: usize, table: &mut [i64], q: usize) -> Reply
    ensures { Cleared n q table.old result table.new }
{
    if !serves(n, table.len()) {
        return Err(Refusal::Size);
    }
    if q < 1 || n < q {
        return Err(Refusal::OutOfLimit { line: 0 });
    }
    clear_places(n, table, q - 1);
    Ok(())
}

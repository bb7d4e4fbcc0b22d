// The rule of a place, and the place of a rule.
ghost use Rattle.tables.specs.Promises.{AtPlace, Placed};

use rules::rule::Rule;

// The rule of `place` with the bound given, the lower quantity first. Every place of a table has at most 32 bits.
#[tactic(auto, using(crate::proofs::Promised::starts))]
pub fn rule_at(place: u32, bound: i64) -> Rule
    ensures { AtPlace place bound result }
{
    let block = places::block(place);
    let start = 2 * (block * block);
    let offset = place - start;
    if offset < 2 {
        return Rule::One {
            literal: 2 * block + offset % 2,
            bound,
        };
    }
    Rule::Two {
        first: (offset - 2) / 2,
        second: 2 * block + offset % 2,
        bound,
    }
}

// Where a rule's term stands; a doubled term, one that cancels and a bare rule have no place.
#[tactic(auto, using(crate::proofs::Promised::placed), unfolding(crate::specs::Places::find_place))]
pub fn place_of(rule: Rule) -> Option<usize>
    ensures { Placed rule result }
{
    match rule {
        Rule::One { literal, .. } => Some(places::of_one(literal)),
        Rule::Two { first, second, .. } => places::of_two(first, second),
        Rule::Nothing { .. } => None,
    }
}

// The order of a bank sheet's rules.
ghost use Rattle.std.specs.Prelude.{◌≡◌};
ghost use Rattle.reading.specs.Ordered.{canonical_place};
ghost use Rattle.reading.specs.Inner.{place_after};

use rules::rule::Rule;

// Where a rule's term stands that is of one quantity, or of two with the lower one first; any other rule, as one with a doubled term, has no place here.
#[tactic(auto, using(crate::proofs::OrderedLines::lower_found), unfolding(crate::specs::Ordered::canonical_place))]
fn canonical_place(rule: Rule) -> Option<usize>
    ensures { result ≡ canonical_place rule }
{
    match rule {
        Rule::One { literal, .. } => Some(places::of_one(literal)),
        Rule::Two { first, second, .. } if first / 2 < second / 2 => places::of_two(first, second),
        Rule::Two { .. } | Rule::Nothing { .. } => None,
    }
}

// The place of the next rule, the place of the last one before it being given where there is one; none where it is not after that one, or the rule has no place here.
#[tactic(auto, unfolding(crate::specs::Inner::not_before))]
pub(crate) fn place_after(last: Option<usize>, rule: Rule) -> Option<usize>
    ensures { result ≡ place_after last rule }
{
    let place = canonical_place(rule)?;
    if last.is_some_and(|before| place <= before) {
        return None;
    }
    Some(place)
}

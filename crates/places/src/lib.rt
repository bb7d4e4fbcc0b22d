// The numbering of terms: the place of a term, and the term of a place.
#![tactic(auto)]

ghost use Rattle.std.specs.Prelude.{◌≡◌};
ghost use Rattle.places.specs.Numbering.{place_of_one, place_of_pair, find_two, block_of};

// The place of the term of one literal.
#[tactic(auto, unfolding(crate::specs::Numbering::place_of_one, crate::specs::Numbering::block_start))]
pub fn of_one(x: u32) -> usize
    ensures { result ≡ place_of_one x }
{
    let j = x as usize / 2;
    2 * (j * j) + x as usize % 2
}

// The place of two literals of which `x` is of the lower quantity.
#[tactic(auto, unfolding(crate::specs::Numbering::place_of_pair, crate::specs::Numbering::block_start))]
fn of_pair(x: u32, y: u32) -> usize
    ensures { result ≡ place_of_pair x y }
{
    let j = y as usize / 2;
    2 * (j * j) + 2 + 2 * (x as usize) + y as usize % 2
}

// The place of the term of two literals, in either order; two of one quantity have none.
#[tactic(auto, unfolding(crate::specs::Numbering::find_two, crate::specs::Numbering::place_of_two))]
pub fn of_two(x: u32, y: u32) -> Option<usize>
    ensures { result ≡ find_two x y }
{
    if x / 2 == y / 2 {
        None
    } else if x < y {
        Some(of_pair(x, y))
    } else {
        Some(of_pair(y, x))
    }
}

// The block in which a place lies, by its quantity less 1. A place has 32 bits here, so that the squares tried fit 64.
#[tactic(auto, using(crate::proofs::Numbering::block_unique), unfolding(crate::specs::Numbering::block_start))]
pub fn block(place: u32) -> u32
    ensures { result ≡ block_of place }
{
    let k = place as usize;
    let mut j: usize = 0;
    // Kept: tried, slower: `(place / 2).isqrt()` halves a range 16 times at any place, while blocks are few and low ones many (20 ns against 5 over 4 quantities,
    // 24 against 20 over 32). A `for` would need an end that no place reaches, and an answer behind it.
    while 2 * ((j + 1) * (j + 1)) <= k {
        j += 1;
    }
    j as u32
}

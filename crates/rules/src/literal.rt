// Literals: a quantity with its sign, by a code that needs no cases (specs/Literal.antt); and the test of a signed quantity number.
// Kept: a literal stays a number: what may not change, as public functions take and give its code (`Rule`'s fields, `quantity`, `negate`, `places::of_one`, `places::of_two`), and the theorems of rules and of places speak of it, in `Stands`, `partner_of` and `place_of_two`.
ghost use Rattle.std.specs.Prelude.{◌≡◌, nat_abs};
ghost use Rattle.rules.specs.Literal.{quantity_of, negated, quantity_within};

// The quantity that a literal names, counted from 1.
pub fn quantity(x: u32) -> usize
    ensures { result ≡ quantity_of x }
{
    x as usize / 2 + 1
}

// The same quantity with the other sign.
pub fn negate(x: u32) -> u32
    ensures { result ≡ negated x }
{
    2 * (x / 2) + (1 - x % 2)
}

// Whether a signed quantity number is of one of 1 to `n`.
pub fn is_quantity(number: i64, n: usize) -> bool
    ensures { result ≡ quantity_within n (nat_abs number) }
{
    let q = integers::magnitude(number) as usize;
    1 <= q && q <= n
}

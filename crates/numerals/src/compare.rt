// Two numerals compared by their digits, of which there may be any number.
ghost use Rattle.numerals.specs.Order.{Compared};

// Whether the numeral `x` is smaller than the numeral `y`: of two of one length the first digit that differs decides.
pub fn is_smaller(x: &[u8], y: &[u8]) -> bool
    ensures { Compared x.now y.now result }
{
    if x.len() == y.len() {
        return x < y;
    }
    x.len() < y.len()
}

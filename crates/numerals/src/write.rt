// Bytes and numerals written into a buffer at a cursor. Each function needs room for what it writes, and its caller has measured it.
ghost use Rattle.std.specs.Prelude.{◌≡◌, [], ◌∷◌, ◌+◌, ◌≤◌, length};
ghost use Rattle.numerals.specs.Decimal.{decimal, signed_decimal};
ghost use Rattle.numerals.specs.Writing.{Spliced};

// Kept: digits are written here and not by the library's Display: the clauses promise the bytes that stand in a lent output (`Spliced`), and how many, before there is any.
// How many digits the numeral of `v` has.
pub fn width(v: u64) -> usize
    ensures { result ≡ length (decimal v) }
{
    let above_one = v.checked_ilog10().unwrap_or(0);
    above_one as usize + 1
}

// How many bytes the numeral of `c` has, with its sign.
pub fn signed_width(c: i64) -> usize
    ensures { result ≡ length (signed_decimal c) }
{
    let digits = width(integers::magnitude(c));
    if c < 0 { 1 + digits } else { digits }
}

// One byte; answers the cursor after it.
pub fn put_byte(out: &mut [u8], at: usize, b: u8) -> usize
    requires { at + 1 ≤ length out.old }
    ensures { Spliced out.old at (b ∷ []) result out.new }
{
    out[at] = b;
    at + 1
}

// The bytes of a text; answers the cursor after them.
pub fn put_text(out: &mut [u8], at: usize, text: &[u8]) -> usize
    requires { at + length text.now ≤ length out.old }
    ensures { Spliced out.old at text.now result out.new }
{
    out[at..at + text.len()].copy_from_slice(text);
    at + text.len()
}

// The numeral of `v`, from its last digit on; answers the cursor after it.
pub fn put_number(out: &mut [u8], at: usize, v: u64) -> usize
    requires { at + length (decimal v) ≤ length out.old }
    ensures { Spliced out.old at (decimal v) result out.new }
{
    let end = at + width(v);
    let mut rest = v;
    for i in (at..end).rev() {
        out[i] = b'0' + (rest % 10) as u8;
        rest /= 10;
    }
    end
}

// The numeral of `c`, with `-` below 0; answers the cursor after it.
pub fn put_signed(out: &mut [u8], at: usize, c: i64) -> usize
    requires { at + length (signed_decimal c) ≤ length out.old }
    ensures { Spliced out.old at (signed_decimal c) result out.new }
{
    let digits = if c < 0 { put_byte(out, at, b'-') } else { at };
    put_number(out, digits, integers::magnitude(c))
}

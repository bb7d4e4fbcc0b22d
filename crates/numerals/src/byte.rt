// What a byte is in a text.
ghost use Rattle.std.specs.Prelude.{◌≡◌, get_or, drop};
ghost use Rattle.numerals.specs.Bytes.{kind_of};
ghost use Rattle.numerals.specs.Parsing.{starts_with, digit_next};

#[derive(Clone, Copy, PartialEq, Eq, Debug)]
pub enum Kind {
    Digit,
    Plus,
    Minus,
    Colon,
    Comma,
    LineEnd,
    Other,
}

// The kind of a byte.
impl From<u8> for Kind {
    ghost from_gives = { λ b kind. kind ≡ kind_of b };

    #[tactic(auto, using(crate::proofs::Keys::is_digit_lem, crate::proofs::Keys::kind_other), unfolding(crate::specs::Bytes::kind_of))]
    fn from(b: u8) -> Kind {
        match b {
            b'0'..=b'9' => Kind::Digit,
            b'+' => Kind::Plus,
            b'-' => Kind::Minus,
            b':' => Kind::Colon,
            b',' => Kind::Comma,
            b'\n' => Kind::LineEnd,
            _ => Kind::Other,
        }
    }
}

// The byte at the cursor; at the end of the text it is 0, which has none of the named kinds.
// Kept: 0 and no Option, as its clause has it; each byte is asked of by its kind, of which 0 has none.
pub fn byte_at(s: &[u8], at: usize) -> u8
    ensures { result ≡ get_or s.now at 0 }
{
    s.get(at).copied().unwrap_or(0)
}

// Whether the byte at the cursor is a digit.
pub fn is_digit_at(s: &[u8], at: usize) -> bool
    ensures { result ≡ digit_next (drop at s.now) }
{
    Kind::from(byte_at(s, at)) == Kind::Digit
}

// Whether the text goes on at the cursor with the bytes of `key`.
pub fn has_key(s: &[u8], at: usize, key: &[u8]) -> bool
    ensures { result ≡ starts_with key.now (drop at s.now) }
{
    let rest = &s[at.min(s.len())..];
    rest.starts_with(key)
}

// The bytes that are lent for marks.
ghost use Rattle.std.specs.Prelude.{◌≡◌, ◌≤◌, length};
ghost use Rattle.marks.specs.Bytes.{MarksTested, BytesCopied, mark_count};

// Whether each of the first `m` bytes, or of all where there are fewer, is 0 or 1.
pub fn are_marks(marks: &[u8], m: usize) -> bool
    ensures { MarksTested m marks.now result }
{
    marks.iter().take(m).all(|mark| *mark <= 1)
}

// Copies the first `m` bytes.
// Kept: beside `words::copy`, which takes lists of any lengths, of words: this is one call of the library, and one function for both would be no plainer.
pub fn copy(to: &mut [u8], from: &[u8], m: usize)
    requires { (m ≤ length to.old) × (m ≤ length from.now) }
    ensures { BytesCopied m from.now to.old to.new }
{
    to[..m].copy_from_slice(&from[..m]);
}

// How many of the first `m` bytes, or of all where there are fewer, are 1.
pub fn count(marks: &[u8], m: usize) -> usize
    ensures { result ≡ mark_count m marks.now }
{
    marks.iter().take(m).filter(|mark| **mark == 1).count()
}

// The end of a line.
ghost use Rattle.std.specs.Prelude.{◌≡◌};
ghost use Rattle.lines.specs.Inner.{ended_answer};

use numerals::byte;
use numerals::byte::Kind;
use numerals::read::Found;

// What was found, where the line ends after it, with the cursor of the next line.
pub(crate) fn ended<T: Drop>(s: &[u8], found: Found<T>) -> Option<Found<T>>
    ensures { result ≡ ended_answer s.now found }
{
    if Kind::from(byte::byte_at(s, found.next)) != Kind::LineEnd {
        return None;
    }
    Some(Found {
        value: found.value,
        next: found.next + 1,
    })
}

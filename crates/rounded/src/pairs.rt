// The test whether a rule of two quantities is marked.
ghost use Rattle.std.specs.Prelude.{◌≤◌, length};
ghost use Rattle.places.specs.Numbering.{block_start};
ghost use Rattle.rules.specs.Limits.{max_quantities};
ghost use Rattle.rounded.specs.Inner.{RunTested, PairsTested};

// Whether one of the bytes from `from` up to, and without, `to` is not 0.
fn is_any_set(marks: &[u8], from: usize, to: usize) -> bool
    requires { to ≤ length marks.now }
    ensures { RunTested from to marks.now result }
{
    marks[..to].iter().skip(from).any(|mark| 0 < *mark)
}

// Whether a place of two quantities is marked, of a table over `n`.
pub(crate) fn is_any_marked(n: usize, marks: &[u8]) -> bool
    requires { (n ≤ max_quantities) × (block_start n ≤ length marks.now) }
    ensures { PairsTested n marks.now result }
{
    for b in 0..n {
        let start = 2 * (b * b);
        if is_any_set(marks, start + 2, start + 4 * b + 2) {
            return true;
        }
    }
    false
}

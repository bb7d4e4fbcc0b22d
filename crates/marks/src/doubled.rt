// A table with its marks in its words: each bound doubled, and 1 more where it is marked.
ghost use Rattle.std.specs.Prelude.{◌≤◌, length};
ghost use Rattle.marks.specs.Doubled.{Doublable, TableDoubled, TableSplit};

use rules::sheet::Sheet;

// Doubles the first `m` bounds, and adds 1 to those that are marked.
pub fn double(table: &mut [i64], marks: &[u8], m: usize)
    requires { Doublable m table.old marks.now }
    ensures { TableDoubled m table.old marks.now table.new }
{
    for i in 0..m {
        let bound = table[i];
        if bound < Sheet::NO_RULE {
            table[i] = bound + bound + i64::from(marks[i] == 1);
        }
    }
}

// Takes the first `m` words apart: the bounds, halved, and the marks, 1 where a word is odd.
pub fn split(table: &mut [i64], marks: &mut [u8], m: usize)
    requires { (m ≤ length table.old) × (m ≤ length marks.old) }
    ensures { TableSplit m table.old marks.old table.new marks.new }
{
    for i in 0..m {
        let word = table[i];
        if word < Sheet::NO_RULE {
            let halved = integers::halve(word);
            table[i] = halved.half;
            marks[i] = u8::from(halved.odd);
        } else {
            marks[i] = 0;
        }
    }
}

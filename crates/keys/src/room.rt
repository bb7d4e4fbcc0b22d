// Room on the stack for the list, the rows and the table of a call, in three sizes: the first that is long enough for `n` is taken, since all of it is cleared. A list has a number for each
// quantity, a row a word for each literal.
ghost use Rattle.std.specs.Prelude.{◌≡◌, ◌*◌, ◌≤◌, pos, replicate};
ghost use Rattle.rules.specs.Limits.{max_quantities};

use rules::sheet::Sheet;

// The most quantities of the small room.
pub const SMALL: usize = 8;

pub const SMALL_ROW: usize = 2 * SMALL;

pub const SMALL_TABLE: usize = 2 * SMALL * SMALL;

// The same of the middle room.
pub const MIDDLE: usize = 16;

pub const MIDDLE_ROW: usize = 2 * MIDDLE;

pub const MIDDLE_TABLE: usize = 2 * MIDDLE * MIDDLE;

// The same of the large room, which is long enough for every sheet; its table has `tables::table::LARGEST` words.
pub const LARGE: usize = Sheet::MAX_QUANTITIES;

pub const LARGE_ROW: usize = 2 * LARGE;

// Kept: the sizes of rows and tables are constants of their own, and parameters beside the list's, since the language computes no const argument, as `2 * LIST`, from another.
// Kept: each function that takes room calls its generic one three times. One function here that took the step as a closure would be no plainer: it would have to lend the step its table too,
// and to say in its contract what the step leaves in each slice.

// The list of live quantities at a turn, and the rows of the rules of its quantity with + and with -.
#[derive(Drop)]
pub struct Rows<const LIST: usize, const ROW: usize> {
    pub list: [usize; LIST],
    pub plus: [i64; ROW],
    pub minus: [i64; ROW],
}

impl<const LIST: usize, const ROW: usize> Rows<LIST, ROW> {
    // All words are 0.
    #[inline]
    pub fn new() -> Self
        requires { (LIST ≤ max_quantities) × (ROW ≤ 2 * max_quantities) }
        ensures { (result.list ≡ replicate LIST 0) × (result.plus ≡ replicate ROW (pos 0)) × (result.minus ≡ replicate ROW (pos 0)) }
    {
        Rows {
            list: [0; LIST],
            plus: [0; ROW],
            minus: [0; ROW],
        }
    }
}
